// The two engines beside one another.
use crate::states;
use preoutput::{Adding, plain};
use std::{io, iter};

const STATES: usize = 100;

const FIRST: u64 = 0x0123_4567_89ab_cdef;

// Whether the engines end in the same words on each of the states.
fn agree(to_add: Adding, clocks: usize) -> bool {
    let first = states::state(FIRST);
    iter::successors(Some(first), |begun| {
        Some(states::state(states::after(begun.outputs)))
    })
    .take(STATES)
    .all(|begun| plain::run(begun, to_add, clocks) == strokes::run(begun, to_add, clocks))
}

// Also shows the last 64 pre-outputs from the first state.
pub fn line(rt: &impl Print, name: &str, to_add: Adding, clocks: usize) -> io::Result<()> {
    let verdict = if agree(to_add, clocks) {
        "the same"
    } else {
        "NOT"
    };
    let first = strokes::run(states::state(FIRST), to_add, clocks);
    println!(rt;
        "{verdict:<8}  {name}, {clocks} clocks, {STATES} states; the first ends in pre-outputs {:016x}",
        first.outputs
    )
}
