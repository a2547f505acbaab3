// The keystream, 64 bits at a time.
ghost use Rattle.std.specs.Prelude.{◌≡◌, []};
ghost use Rattle.generators.specs.Running.{clocks, given};
ghost use Rattle.grainv1.specs.Functions.{grainv1};
ghost use Rattle.grainv1.specs.Words.{generator_of, running_of, Keystreams};

use crate::registers::{Registers, Run};
use crate::{registers, stroke};

// Sixteen clocks of a run.
fn next(r: Run) -> Run
    ensures { running_of result ≡ clocks grainv1 16 (given []) (given []) (running_of r) }
{
    let g = r.registers;
    let y = stroke::outputs(g);
    Run {
        registers: stroke::plain(g),
        outputs: registers::moved(r.outputs, y),
    }
}

// The outputs of 64 clocks, and the registers after them.
pub fn word(g: Registers) -> Run
    ensures { Keystreams (generator_of g) result }
{
    let mut now = Run {
        registers: g,
        outputs: 0,
    };
    for _ in 0..4u8 {
        now = next(now);
    }
    now
}
