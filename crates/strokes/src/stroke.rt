// A stroke: up to 32 clocks at once. No tap lies above place 96, so all that these clocks read stands in the registers before the first
// of them.
ghost use Rattle.std.specs.Prelude.{◌≡◌, ◌≤◌};
ghost use Rattle.bits.specs.Bytes.{word};
ghost use Rattle.bits.specs.Strings.{places};
ghost use Rattle.generators.specs.Strokes.{listed, output_at, lfsr_bit_at, nfsr_bit_at, stroked};
ghost use Rattle.preoutput.specs.Functions.{grain128};
ghost use Rattle.preoutput.specs.Words.{generator_of};

use crate::windows::Windows;
use preoutput::{Registers, taps};

// The 32 pre-outputs to come, which are the lowest 32 bits.
pub fn outputs(g: Registers) -> u64
    ensures { word 32 result ≡ listed 32 (output_at grain128 (generator_of g)) }
{
    taps::output(Windows::of(g.lfsr0, g.lfsr1), Windows::of(g.nfsr0, g.nfsr1))
}

// The new bits of 32 clocks, the lowest 32 of a word, and what is added to them likewise.
fn lfsr_bits(g: Registers, added: u64) -> u64
    ensures { word 32 result ≡ listed 32 (lfsr_bit_at grain128 (generator_of g) (places (word 32 added))) }
{
    taps::linear(Windows::of(g.lfsr0, g.lfsr1)) ^ added
}

fn nfsr_bits(g: Registers, added: u64) -> u64
    ensures { word 32 result ≡ listed 32 (nfsr_bit_at grain128 (generator_of g) (places (word 32 added))) }
{
    (g.lfsr0 >> 32) ^ taps::nonlinear(Windows::of(g.nfsr0, g.nfsr1)) ^ added
}

// The registers after n clocks. To the new bits are added the first n of the 32 lowest bits of `to_lfsr` and of `to_nfsr`.
pub fn stroke(g: Registers, n: usize, to_lfsr: u64, to_nfsr: u64) -> Registers
    requires { n ≤ 32 }
    ensures { generator_of result ≡ stroked grain128 n (places (word 32 to_lfsr)) (places (word 32 to_nfsr)) (generator_of g) }
{
    Registers {
        lfsr0: bits::slide(g.lfsr0, g.lfsr1, n),
        lfsr1: bits::slide(g.lfsr1, lfsr_bits(g, to_lfsr) << 32, n),
        nfsr0: bits::slide(g.nfsr0, g.nfsr1, n),
        nfsr1: bits::slide(g.nfsr1, nfsr_bits(g, to_nfsr) << 32, n),
    }
}

// The registers after 32 clocks with nothing added.
pub fn plain_stroke(g: Registers) -> Registers
    ensures { generator_of result ≡ stroked grain128 32 (places (word 32 0)) (places (word 32 0)) (generator_of g) }
{
    stroke(g, 32, 0, 0)
}
