// The pre-outputs of plain running, which are all keystream bits, or keystream and authentication bits by turns.
ghost use Rattle.std.specs.Prelude.{◌≡◌};
ghost use Rattle.preoutput.specs.Words.{generator_of};
ghost use Rattle.strokes.specs.Streams.{Parted, Keystreams, Streams, spacing};

use crate::stroke;
use preoutput::{Registers, Run};

// Which pre-outputs are keystream bits.
#[derive(Clone, Copy)]
pub enum Taken {
    Every,
    EverySecond,
}

// The registers after some string bits, with the keystream and the authentication bits of their clocks.
#[derive(Clone, Copy)]
pub struct Streamed {
    pub registers: Registers,
    pub keystream: u64,
    pub authentication: u64,
}

// With the keystream bits alone.
#[derive(Clone, Copy)]
pub struct Keystreamed {
    pub registers: Registers,
    pub keystream: u64,
}

impl From<Streamed> for Keystreamed {
    ghost from_gives = { λ s k. k ≡ record { registers = s.registers; keystream = s.keystream } };

    fn from(s: Streamed) -> Keystreamed {
        Keystreamed {
            registers: s.registers,
            keystream: s.keystream,
        }
    }
}

fn parted(r: Run) -> Streamed
    ensures { Parted r result }
{
    let both = bits::parting::part(r.outputs);
    Streamed {
        registers: r.registers,
        keystream: both >> 32,
        authentication: both % 0x1_0000_0000,
    }
}

// The clocks of two strokes, all of whose pre-outputs fill the word. Like preoutput_word it is taken into the loops of its callers, where a
// call would put the registers into memory.
#[inline(always)]
fn two_strokes(g: Registers) -> Run
    ensures { Keystreams 1 64 (generator_of g) result.registers result.outputs }
{
    let half = stroke::plain_stroke(g);
    Run {
        registers: stroke::plain_stroke(half),
        outputs: bits::slide(stroke::outputs(g), stroke::outputs(half) << 32, 32),
    }
}

// The clocks of eight string bits.
pub fn stream_byte(g: Registers) -> Streamed
    ensures { Streams 8 (generator_of g) result }
{
    parted(Run {
        registers: stroke::stroke(g, 16, 0, 0),
        outputs: bits::slide(0, stroke::outputs(g) << 32, 16),
    })
}

// The clocks of 32 string bits.
pub fn stream_word(g: Registers) -> Streamed
    ensures { Streams 32 (generator_of g) result }
{
    parted(two_strokes(g))
}

// The clocks of 32 keystream bits where every pre-output is one.
#[inline(always)]
pub fn preoutput_word(g: Registers) -> Keystreamed
    ensures { Keystreams 1 32 (generator_of g) result.registers result.keystream }
{
    let registers = stroke::plain_stroke(g);
    let y = stroke::outputs(g);
    Keystreamed {
        registers,
        keystream: bits::slide(0, y << 32, 32),
    }
}

// The clocks of eight keystream bits.
pub fn keystream_byte(g: Registers, taken: Taken) -> Keystreamed
    ensures { Keystreams (spacing taken) 8 (generator_of g) result.registers result.keystream }
{
    match taken {
        Taken::Every => Keystreamed {
            registers: stroke::stroke(g, 8, 0, 0),
            keystream: bits::slide(0, stroke::outputs(g) << 32, 8),
        },
        Taken::EverySecond => stream_byte(g).into(),
    }
}

// The clocks of 32 keystream bits.
pub fn keystream_word(g: Registers, taken: Taken) -> Keystreamed
    ensures { Keystreams (spacing taken) 32 (generator_of g) result.registers result.keystream }
{
    match taken {
        Taken::Every => preoutput_word(g),
        Taken::EverySecond => parted(two_strokes(g)).into(),
    }
}
