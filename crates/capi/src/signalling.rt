// Physical values of signals.
ghost use Rattle.std.specs.Prelude.{◌≡◌};
ghost use Rattle.refusals.specs.Signed.{signed_of};
ghost use Rattle.signals.specs.Calls.{scaling, is_signed_of, decoded, answer, bits_after};

use signals::Scaling;

// Writes the bits of a signal's value. Answers 1 where it is below its limits, 2 within, 3 above, 4 not finite, or minus the refusal.
pub fn tikhoplav_signal(
    message: &[u8],
    start: u32,
    width: u32,
    is_signed: u32,
    scale: f64,
    offset: f64,
    low: f64,
    high: f64,
    value_bits: &mut u64,
) -> i64
    ensures value { result ≡ signed_of (answer (decoded message.now start width (is_signed_of is_signed) (scaling scale offset low high))) }
    ensures value_bits_after { value_bits.new ≡ bits_after (decoded message.now start width (is_signed_of is_signed) (scaling scale offset low high)) value_bits.old }
{
    let s = Scaling {
        scale,
        offset,
        low,
        high,
    };
    refusals::signed(signals::decode_bits(message, start, width, is_signed != 0, s, value_bits))
}
