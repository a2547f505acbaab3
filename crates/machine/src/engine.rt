// The machine on words, one bit, one byte or four bytes of the string at a time.
ghost use Rattle.std.specs.Prelude.{◌≡◌, true, ◌∷◌, []};
ghost use Rattle.bits.specs.Bytes.{word, lowest};
ghost use Rattle.machine.specs.Machine.{run};
ghost use Rattle.machine.specs.Engine.{state_of, Crypts};

use crate::edition::Edition;
use authenticator::Tagger;
use preoutput::{Registers, plain};
use strokes::streams;

// The machine carries its edition along; no clock looks at it.
#[derive(Clone, Copy)]
pub struct Engine {
    pub edition: Edition,
    pub registers: Registers,
    pub tagger: Tagger,
}

// The machine after a byte or a word of the string, and that with its keystream added.
#[derive(Clone, Copy)]
pub struct Crypted<T> {
    pub engine: Engine,
    pub text: T,
}

// A message's byte when sealing, a ciphertext's when opening.
pub fn crypt_byte(e: Engine, x: u8, sealing: bool) -> Crypted<u8>
    ensures { Crypts 8 sealing (state_of e) x result.text result.engine }
{
    let s = streams::stream_byte(e.registers);
    let text = x ^ ((s.keystream % 256) as u8);
    let m = if sealing { x } else { text };
    Crypted {
        engine: Engine {
            registers: s.registers,
            tagger: authenticator::absorb_byte(e.tagger, bits::wide(m), s.authentication),
            ..e
        },
        text,
    }
}

// A byte of the string whose keystream is dropped.
pub fn absorb_byte(e: Engine, m: u8) -> Engine
    ensures { state_of result ≡ run (state_of e) (word 8 m) }
{
    crypt_byte(e, m, true).engine
}

// A single bit of the string, the lowest of `m`, whose keystream is dropped: two plain clocks.
pub fn absorb_bit(e: Engine, m: u64) -> Engine
    ensures { state_of result ≡ run (state_of e) (lowest m ∷ []) }
{
    let between = plain::clock(e.registers, 0, 0);
    let new = plain::preoutput(between);
    Engine {
        registers: plain::clock(between, 0, 0),
        tagger: authenticator::absorb(e.tagger, m, new),
        ..e
    }
}

// Thirty-two bits, the lowest of `x`: a message's when sealing, a ciphertext's when opening. The word that comes out has no others.
pub fn crypt_word(e: Engine, x: u64, sealing: bool) -> Crypted<u64>
    ensures { Crypts 32 sealing (state_of e) x result.text result.engine }
{
    let s = streams::stream_word(e.registers);
    let text = (x ^ s.keystream) % 0x1_0000_0000;
    let m = if sealing { x } else { text };
    Crypted {
        engine: Engine {
            registers: s.registers,
            tagger: authenticator::absorb_word(e.tagger, m, s.authentication),
            ..e
        },
        text,
    }
}

// The tag: the accumulator after the final 1, which adds the register to it.
pub fn finish(e: Engine) -> u64
    ensures { word 64 result ≡ (run (state_of e) (true ∷ [])).authenticator.accumulator }
{
    e.tagger.accumulator ^ e.tagger.register
}
