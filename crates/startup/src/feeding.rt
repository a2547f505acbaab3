// Clocks with the pre-output fed back to both registers.
ghost use Rattle.std.specs.Prelude.{◌≡◌};
ghost use Rattle.bits.specs.Bytes.{word};
ghost use Rattle.bits.specs.Times.{times};
ghost use Rattle.generators.specs.Generator.{fed_back, fed_back_with};
ghost use Rattle.preoutput.specs.Functions.{grain128};
ghost use Rattle.preoutput.specs.Words.{generator_of};

use preoutput::{Adding, Registers, Run};

// Any number of them, with nothing else added.
pub fn feed_back(g: Registers, clocks: usize) -> Registers
    ensures { generator_of result ≡ times clocks (fed_back grain128) (generator_of g) }
{
    strokes::run(Run::begun(g), Adding::FED_BACK, clocks).registers
}

// Sixty-four, with the bits of a word added to the new bits of each register too.
pub fn feed_back_with(g: Registers, to_lfsr: u64, to_nfsr: u64) -> Registers
    ensures { generator_of result ≡ fed_back_with grain128 (generator_of g) (word 64 to_lfsr) (word 64 to_nfsr) }
{
    let to_add = Adding {
        lfsr0: to_lfsr,
        nfsr0: to_nfsr,
        ..Adding::FED_BACK
    };
    strokes::run(Run::begun(g), to_add, 64).registers
}
