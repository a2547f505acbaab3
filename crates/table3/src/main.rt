// Runs table 3 of source document 003: each of its cells on the machine below the entry points, and the columns with a key that is not blank
// through the calls. Prints a line for each, and the counts.
#![tactic(auto)]

mod calls;
mod report;
mod rows;
mod table;

use report::Report;
use std::io;

fn main(rt: HostRuntime) -> io::Result<()> {
    let mut report = Report::new(&rt);
    rows::preoutputs(&mut report)?;
    rows::authenticated(&mut report)?;
    rows::short_tag(&mut report)?;
    calls::run(&mut report)?;
    report.close()
}
