// Runs the plain engine and the engine of strokes beside one another, on many states, in each way of running and over many counts of
// clocks, and compares the registers and the pre-outputs that they end in. Prints a line for each way and count.
#![tactic(auto)]

mod compared;
mod states;

use preoutput::Adding;
use std::io;

const COUNTS: [usize; 14] = [0, 1, 2, 16, 31, 32, 33, 63, 64, 65, 95, 96, 97, 1000];

const WAYS: [(&str, Adding); 4] = [
    ("plain", Adding::NOTHING),
    ("fed back", Adding::FED_BACK),
    (
        "with 128 key bits",
        Adding {
            lfsr0: 0x0123_4567_89ab_cdef,
            lfsr1: 0x1234_5678_9abc_def0,
            ..Adding::NOTHING
        },
    ),
    (
        "fed back, with bits added to both registers",
        Adding {
            fed: true,
            lfsr0: 0x0123_4567_89ab_cdef,
            lfsr1: 0x1234_5678_9abc_def0,
            nfsr0: 0xfedc_ba98_7654_3210,
            nfsr1: 0x0fed_cba9_8765_4321,
        },
    ),
];

// A line for each way and count.
fn main(rt: HostRuntime) -> io::Result<()> {
    for (name, to_add) in WAYS {
        for clocks in COUNTS {
            compared::line(&rt, name, to_add, clocks)?;
        }
    }
    Ok(())
}
