// What the clocks of a run add to the new bits.
ghost use Rattle.std.specs.Prelude.{◌≡◌, cond, ◌%◌};
ghost use Rattle.preoutput.specs.Running.{Moves};

use crate::Adding;

// The pre-outputs y as they are fed back.
pub fn fed(a: Adding, y: u64) -> u64
    ensures { result ≡ cond a.fed y 0 }
{
    if a.fed { y } else { 0 }
}

// What is left to add after n clocks; n counts modulo 64.
pub fn left(a: Adding, n: usize) -> Adding
    ensures { Moves (n % 64) a result }
{
    Adding {
        fed: a.fed,
        lfsr0: bits::slide(a.lfsr0, a.lfsr1, n),
        lfsr1: bits::slide(a.lfsr1, 0, n),
        nfsr0: bits::slide(a.nfsr0, a.nfsr1, n),
        nfsr1: bits::slide(a.nfsr1, 0, n),
    }
}
