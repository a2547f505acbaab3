// States to begin with.
use preoutput::{Registers, Run};

// The next of a row of numbers (Marsaglia's xorshift).
pub fn after(x: u64) -> u64 {
    let a = x ^ (x << 13);
    let b = a ^ (a >> 7);
    b ^ (b << 17)
}

pub fn state(seed: u64) -> Run {
    let lfsr0 = after(seed);
    let lfsr1 = after(lfsr0);
    let nfsr0 = after(lfsr1);
    let nfsr1 = after(nfsr0);
    Run {
        registers: Registers {
            lfsr0,
            lfsr1,
            nfsr0,
            nfsr1,
        },
        outputs: after(nfsr1),
    }
}
