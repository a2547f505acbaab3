// The start of the machine, step by step.
use crate::inputs::{KEY, NONCE};
use crate::shown;
use machine::edition::Edition;
use preoutput::{Adding, Registers, Run};
use startup::editions;
use std::io;

// Sixty-four clocks.
fn clocks(g: Registers, add: Adding) -> Run {
    strokes::run(Run::begun(g), add, 64)
}

// The loaded registers, and the pre-outputs of the first 64 clocks, which both editions feed back.
pub fn loading(rt: &impl Print, title: &str, order: Edition) -> io::Result<()> {
    let g = startup::loading::load(order, &KEY, &NONCE);
    shown::title(rt, title)?;
    shown::register(rt, "LFSR", g.lfsr0, g.lfsr1)?;
    shown::register(rt, "NFSR", g.nfsr0, g.nfsr1)?;
    let r = clocks(g, Adding::FED_BACK);
    shown::word(rt, "clocks 0 to 63", r.outputs)
}

// The second edition's start-up from registers that were loaded in an order of bits.
pub fn start_up(rt: &impl Print, title: &str, order: Edition) -> io::Result<()> {
    let mut now = editions::warm(Edition::Second, startup::loading::load(order, &KEY, &NONCE));
    shown::title(rt, title)?;
    for name in ["accumulator", "register", "clocks 512 to 575"] {
        let r = clocks(now, Adding::NOTHING);
        shown::word(rt, name, r.outputs)?;
        now = r.registers;
    }
    Ok(())
}

// An edition's own start-up.
pub fn started(rt: &impl Print, title: &str, edition: Edition) -> io::Result<()> {
    let e = startup::start(edition, &KEY, &NONCE);
    shown::title(rt, title)?;
    shown::word(rt, "accumulator", e.tagger.accumulator)?;
    shown::word(rt, "register", e.tagger.register)?;
    let running = clocks(e.registers, Adding::NOTHING);
    shown::word(rt, "next 64 clocks", running.outputs)
}
