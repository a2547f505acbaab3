// Runs the published vectors on the machine below the entry points, the examples that are not starred on the calls, the sum of two
// tags beside that of registers, and Grain v1. Prints a line for each, and the counts.
#![tactic(auto)]

mod examples;
mod grain_v1;
mod published;
mod report;
mod two_tags;

use report::Report;
use std::io;

fn main(rt: HostRuntime) -> io::Result<()> {
    let mut report = Report::new(&rt);
    published::run(&mut report)?;
    examples::edges(&mut report)?;
    examples::order(&mut report)?;
    examples::blank_key(&mut report)?;
    examples::largest(&mut report)?;
    two_tags::run(&mut report)?;
    grain_v1::published(&mut report)?;
    grain_v1::edges(&mut report)?;
    report.close()
}
