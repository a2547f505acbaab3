// Shows the second edition beside the first: the loading and the first pre-outputs in both orders of bits, the second edition's start-up from
// each, and payloads of both editions from the same inputs.
#![tactic(auto)]

mod inputs;
mod payloads;
mod shown;
mod starts;

use machine::edition::Edition;
use std::io;

fn main(rt: HostRuntime) -> io::Result<()> {
    for (title, order) in [
        (
            "loaded with the bits of every byte from the lowest up",
            Edition::Second,
        ),
        (
            "loaded with the bits of every byte from the top down",
            Edition::First,
        ),
    ] {
        starts::loading(&rt, title, order)?;
    }
    for (title, order) in [
        (
            "second edition's start-up, bits from the lowest up",
            Edition::Second,
        ),
        (
            "second edition's start-up, bits from the top down",
            Edition::First,
        ),
    ] {
        starts::start_up(&rt, title, order)?;
    }
    starts::started(&rt, "edition 1, started", Edition::First)?;
    starts::started(&rt, "edition 2, started", Edition::Second)?;
    payloads::all(&rt)
}
