// The rows on the machine below the entry points, which takes the blank key too.
use crate::report::{Report, hex};
use crate::table::{
    AUTHENTICATED_3, AUTHENTICATED_4, Authenticated, COLUMN_4, COLUMNS, Column, MESSAGES, Message,
    SHORT_TAG,
};
use grain128a::starting;
use machine::edition::Edition;
use machine::engine::{self, Engine};
use preoutput::Registers;
use startup::loading;
use std::io;
use strokes::streams::{self, Keystreamed, Streamed};

// The registers whose clocks give the pre-output stream.
fn warmed(c: &Column) -> Registers {
    starting::warm(loading::load(Edition::First, &c.key, &c.iv))
}

// The lowest 32 bits.
fn low(w: u64) -> u64 {
    w % 0x1_0000_0000
}

// Two words of 32 bits as one.
fn joined(first: u64, second: u64) -> u64 {
    (first << 32) | low(second)
}

// The next 64 pre-outputs.
fn next(g: Registers) -> Keystreamed {
    let first = streams::preoutput_word(g);
    let second = streams::preoutput_word(first.registers);
    Keystreamed {
        registers: second.registers,
        keystream: joined(first.keystream, second.keystream),
    }
}

pub fn preoutputs(report: &mut Report<'_, impl Print>) -> io::Result<()> {
    for c in COLUMNS {
        let mut now = warmed(&c);
        let found = c.preoutputs.map(|_| {
            let word = next(now);
            now = word.registers;
            word.keystream
        });
        report.words(c.number, "pre-output stream", &found, &c.preoutputs)?;
    }
    Ok(())
}

// The keystream and the macstream of the next 64 string bits.
fn next_of_both(g: Registers) -> Streamed {
    let first = streams::stream_word(g);
    let second = streams::stream_word(first.registers);
    Streamed {
        registers: second.registers,
        keystream: joined(first.keystream, second.keystream),
        authentication: joined(first.authentication, second.authentication),
    }
}

// The tag of 32 bits, of a message whose bits the machine takes one by one.
fn tag_of(e: Engine, m: Message) -> u64 {
    let mut now = e;
    let mut bits = m.bits;
    for _ in 0..m.size {
        now = engine::absorb_bit(now, bits >> 63);
        bits = bits << 1;
    }
    low(engine::finish(now))
}

fn authenticated_of(report: &mut Report<'_, impl Print>, a: Authenticated) -> io::Result<()> {
    let n = a.column.number;
    let e = starting::fill(warmed(&a.column));
    let accumulator = hex(8, low(e.tagger.accumulator), a.accumulator);
    let register = hex(8, low(e.tagger.register), a.register);
    report.cell(n, "accumulator", accumulator)?;
    report.cell(n, "register", register)?;
    let first = next_of_both(e.registers);
    let second = next_of_both(first.registers);
    let keystream = [first.keystream, second.keystream];
    let macstream = [first.authentication, second.authentication];
    report.words(n, "keystream", &keystream, &a.keystream)?;
    report.words(n, "macstream", &macstream, &a.macstream)?;
    for (i, (message, expected)) in MESSAGES.into_iter().zip(a.tags).enumerate() {
        let tag = hex(8, tag_of(e, message), expected);
        report.cell(n, format_args!("tag(m{i})"), tag)?;
    }
    Ok(())
}

pub fn authenticated(report: &mut Report<'_, impl Print>) -> io::Result<()> {
    authenticated_of(report, AUTHENTICATED_3)?;
    authenticated_of(report, AUTHENTICATED_4)
}

pub fn short_tag(report: &mut Report<'_, impl Print>) -> io::Result<()> {
    let tag = tag_of(starting::fill(warmed(&COLUMN_4)), MESSAGES[4]);
    let cell = hex(4, tag % 0x1_0000, SHORT_TAG);
    report.cell(COLUMN_4.number, "tag(m4) of 16 bits", cell)
}
