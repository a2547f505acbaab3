// The pre-output generator's engine of strokes: 32 clocks at once, and those that are left.
#![tactic(auto)]

pub mod streams;
mod stroke;
mod windows;

ghost use Rattle.std.specs.Prelude.{◌≡◌, true, ◌↔◌, ◌≤◌};
ghost use Rattle.generators.specs.Running as running;
ghost use Rattle.preoutput.specs.Functions.{grain128};
ghost use Rattle.preoutput.specs.Running.{running_of, to_lfsr, to_nfsr};

use preoutput::{Adding, Run, added, plain};

// The next n clocks of a run, 32 at most, at once.
fn at_once(r: Run, a: Adding, n: usize) -> Run
    requires { n ≤ 32 }
    ensures { running_of result ≡ running.clocks grain128 n (to_lfsr a) (to_nfsr a) (running_of r) }
{
    let g = r.registers;
    let y = stroke::outputs(g);
    let fed = added::fed(a, y);
    Run {
        registers: stroke::stroke(g, n, fed ^ (a.lfsr0 >> 32), fed ^ (a.nfsr0 >> 32)),
        outputs: bits::slide(r.outputs, y << 32, n),
    }
}

pub fn run(r: Run, a: Adding, clocks: usize) -> Run
    ensures { running_of result ≡ running.clocks grain128 clocks (to_lfsr a) (to_nfsr a) (running_of r) }
{
    let mut now = r;
    let mut to_add = a;
    // The strokes before the last, which may be shorter.
    let before = clocks.saturating_sub(1) / 32;
    for _ in 0..before {
        now = at_once(now, to_add, 32);
        to_add = added::left(to_add, 32);
    }
    at_once(now, to_add, clocks - 32 * before)
}

// Whether two runs have the same words.
fn same(a: Run, b: Run) -> bool
    ensures { (result ≡ true) ↔ (a ≡ b) }
{
    a == b
}

// Whether this engine and the plain one end in the same words: they always do.
pub fn engines_agree(r: Run, a: Adding, clocks: usize) -> bool
    ensures { result ≡ true }
{
    same(plain::run(r, a, clocks), run(r, a, clocks))
}
