// Clocks that add bits to the LFSR, whose pre-outputs fill a word.
ghost use Rattle.bits.specs.Bytes.{word};
ghost use Rattle.startup.specs.Filling.{Fills};

use preoutput::{Adding, Registers, Run};

// A clock for each bit of a word, which is added to the new LFSR bit.
pub fn fill(g: Registers, added: u64) -> Run
    ensures { Fills g (word 64 added) result }
{
    let to_add = Adding {
        lfsr0: added,
        ..Adding::NOTHING
    };
    strokes::run(Run::begun(g), to_add, 64)
}
