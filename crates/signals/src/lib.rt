// Physical values of signals in a message: where a signal lies, its raw number, its value, and where that lies in its limits.
#![tactic(auto)]

mod judging;
mod raw;

ghost use Rattle.std.specs.Prelude.{◌≡◌};
ghost use Rattle.signals.specs.Calls as calls;

use refusals::Refusal;

// The four numbers of a signal: what its raw number is multiplied by, what is added, and its limits.
#[derive(Clone, Copy)]
pub struct Scaling {
    pub scale: f64,
    pub offset: f64,
    pub low: f64,
    pub high: f64,
}

// A value, and where it lies in its limits; the ends are within.
#[derive(Clone, Copy)]
pub enum Verdict {
    Below(f64),
    Within(f64),
    Above(f64),
    NotFinite(f64),
}

// The value of the signal of `width` bits from bit `start` on, with its verdict, or why it has none.
pub fn decode(
    message: &[u8],
    start: u32,
    width: u32,
    signed: bool,
    s: Scaling,
) -> Result<Verdict, Refusal>
    ensures { result ≡ calls.decoded message.now start width signed s }
{
    let misplaced = raw::misplaced(message.len(), start, width);
    refusals::first(&[
        (Refusal::SignalPlace, misplaced),
        (Refusal::SignalNumbers, judging::unusable(s)),
    ])?;
    let n = raw::raw(message, start, width, signed);
    Ok(judging::verdict(judging::value(n, s), s))
}

// Decodes a signal into the bits of its value. Answers 1 where it is below its limits, 2 within, 3 above, 4 not finite.
pub fn decode_bits(
    message: &[u8],
    start: u32,
    width: u32,
    signed: bool,
    s: Scaling,
    value_bits: &mut u64,
) -> Result<usize, Refusal>
    ensures value { result ≡ calls.answer (calls.decoded message.now start width signed s) }
    ensures value_bits_after { value_bits.new ≡ calls.bits_after (calls.decoded message.now start width signed s) value_bits.old }
{
    let v = decode(message, start, width, signed, s)?;
    *value_bits = f64::to_bits(judging::carried(v));
    Ok(judging::number(v))
}
