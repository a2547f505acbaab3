// The plain engine: one clock after the other.
ghost use Rattle.std.specs.Prelude.{◌≡◌};
ghost use Rattle.bits.specs.Bit.{digit};
ghost use Rattle.bits.specs.Bytes.{lowest};
ghost use Rattle.generators.specs.Generator as generator;
ghost use Rattle.generators.specs.Running as running;
ghost use Rattle.preoutput.specs.Functions.{grain128};
ghost use Rattle.preoutput.specs.Words.{generator_of};
ghost use Rattle.preoutput.specs.Running.{running_of, to_lfsr, to_nfsr};

use crate::taps::Taps;
use crate::{Adding, Registers, Run, added, taps};

// The pre-output, 0 or 1.
pub fn preoutput(g: Registers) -> u64
    ensures { result ≡ digit (generator.preoutput grain128 (generator_of g)) }
{
    taps::output(Taps(g.lfsr0, g.lfsr1), Taps(g.nfsr0, g.nfsr1)) % 2
}

// One clock, with the lowest bits of `to_lfsr` and `to_nfsr` added to the new bits.
pub fn clock(g: Registers, to_lfsr: u64, to_nfsr: u64) -> Registers
    ensures { generator_of result ≡ generator.clock grain128 (generator_of g) (lowest to_lfsr) (lowest to_nfsr) }
{
    let s = taps::linear(Taps(g.lfsr0, g.lfsr1)) ^ to_lfsr;
    let b = (g.lfsr0 >> 63) ^ taps::nonlinear(Taps(g.nfsr0, g.nfsr1)) ^ to_nfsr;
    Registers {
        lfsr0: bits::shift_in(g.lfsr0, g.lfsr1 >> 63),
        lfsr1: bits::shift_in(g.lfsr1, s),
        nfsr0: bits::shift_in(g.nfsr0, g.nfsr1 >> 63),
        nfsr1: bits::shift_in(g.nfsr1, b),
    }
}

// One clock of a run.
fn next(r: Run, a: Adding) -> Run
    ensures { running_of result ≡ running.next grain128 (to_lfsr a 0) (to_nfsr a 0) (running_of r) }
{
    let g = r.registers;
    let y = preoutput(g);
    let fed = added::fed(a, y);
    Run {
        registers: clock(g, fed ^ (a.lfsr0 >> 63), fed ^ (a.nfsr0 >> 63)),
        outputs: bits::shift_in(r.outputs, y),
    }
}

pub fn run(r: Run, a: Adding, clocks: usize) -> Run
    ensures { running_of result ≡ running.clocks grain128 clocks (to_lfsr a) (to_nfsr a) (running_of r) }
{
    let mut now = r;
    let mut to_add = a;
    for _ in 0..clocks {
        now = next(now, to_add);
        to_add = added::left(to_add, 1);
    }
    now
}
