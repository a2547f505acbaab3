// A stroke: sixteen clocks at once. No tap lies above place 64, so all that these clocks read stands in the registers before the first of them.
ghost use Rattle.std.specs.Prelude.{◌≡◌};
ghost use Rattle.bits.specs.Bytes.{word};
ghost use Rattle.bits.specs.Strings.{places};
ghost use Rattle.bits.specs.Times.{times};
ghost use Rattle.generators.specs.Generator.{plain, fed_back};
ghost use Rattle.generators.specs.Strokes.{listed, output_at, stroked};
ghost use Rattle.grainv1.specs.Functions.{grainv1};
ghost use Rattle.grainv1.specs.Words.{generator_of};

use crate::registers::Registers;
use crate::windows::{self, Windows};

// The sixteen outputs to come, which are the lowest sixteen bits.
pub fn outputs(g: Registers) -> u64
    ensures { word 16 result ≡ listed 16 (output_at grainv1 (generator_of g)) }
{
    windows::output(Windows::of(g.lfsr0, g.lfsr1), Windows::of(g.nfsr0, g.nfsr1))
}

// The registers after sixteen clocks. To the new bits of both are added the lowest sixteen bits of a word.
fn stroke(g: Registers, added: u64) -> Registers
    ensures { generator_of result ≡ stroked grainv1 16 (places (word 16 «added»)) (places (word 16 «added»)) (generator_of g) }
{
    let s = Windows::of(g.lfsr0, g.lfsr1);
    let b = Windows::of(g.nfsr0, g.nfsr1);
    Registers {
        lfsr0: s.1,
        lfsr1: windows::linear(s) ^ added,
        nfsr0: b.1,
        nfsr1: (g.lfsr0 >> 48) ^ windows::nonlinear(b) ^ added,
    }
}

// The registers after sixteen clocks with nothing added.
pub fn plain(g: Registers) -> Registers
    ensures { generator_of result ≡ times 16 (plain grainv1) (generator_of g) }
{
    stroke(g, 0)
}

// The registers after sixteen clocks that feed the output back to both.
pub fn fed_back(g: Registers) -> Registers
    ensures { generator_of result ≡ times 16 (fed_back grainv1) (generator_of g) }
{
    stroke(g, outputs(g))
}
