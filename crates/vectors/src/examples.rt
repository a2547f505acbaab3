// Document 01's examples that are not starred, at the limits of document 02 (C-14), and those of the blank key (C-18).
use crate::report::Report;
use grain128aead::sizes::AD_LIMIT;
use limits::MESSAGE_LIMIT;
use std::io;

const KEY: [u8; 16] = [0x5a; 16];

const BLANK: [u8; 16] = [0; 16];

const SEALED_LIMIT: usize = MESSAGE_LIMIT + 8;

// No slice here is longer.
const LONGEST: usize = AD_LIMIT + SEALED_LIMIT;

// The first n bytes of a slice that has them; else all of it.
pub fn front(s: &[u8], n: usize) -> &[u8] {
    &s[..n.min(s.len())]
}

pub fn front_mut(s: &mut [u8], n: usize) -> &mut [u8] {
    let n = n.min(s.len());
    &mut s[..n]
}

// The answer of a sealing with this key and these sizes: the count, or minus the refusal.
fn sealing(key: &[u8], nonce: usize, ad: usize, message: usize, out: usize) -> i64 {
    let bytes = [0x5au8; LONGEST];
    let mut lent = [0xeeu8; LONGEST];
    capi::tikhoplav_seal(
        key,
        front(&bytes, nonce),
        front(&bytes, ad),
        front(&bytes, message),
        front_mut(&mut lent, out),
    )
}

// The answer of an opening of zeros with this key.
fn opening(key: &[u8], ad: usize, sealed: usize, out: usize) -> i64 {
    let bytes = [0u8; LONGEST];
    let mut lent = [0xeeu8; LONGEST];
    capi::tikhoplav_open(
        key,
        front(&bytes, 12),
        front(&bytes, ad),
        front(&bytes, sealed),
        front_mut(&mut lent, out),
    )
}

fn edges_of_the_ad(report: &mut Report<'_, impl Print>) -> io::Result<()> {
    for (size, outcome, answer) in [(AD_LIMIT, "passes", 8), (AD_LIMIT + 1, "gives 3", -3)] {
        let ok = sealing(&KEY, 12, size, 0, 8) == answer;
        report.line(format_args!("AD of {size} bytes {outcome}"), ok)?;
    }
    for (size, outcome, answer) in [
        (AD_LIMIT, "goes on to 7", -7),
        (AD_LIMIT + 1, "gives 3", -3),
    ] {
        let ok = opening(&KEY, size, 8, 0) == answer;
        report.line(
            format_args!("opened with an AD of {size} bytes {outcome}"),
            ok,
        )?;
    }
    Ok(())
}

// Of messages and sealed inputs, with room for the output, or none.
fn edges_of_the_text(report: &mut Report<'_, impl Print>) -> io::Result<()> {
    for (size, room, outcome, answer) in [
        (MESSAGE_LIMIT, SEALED_LIMIT, "passes", SEALED_LIMIT as i64),
        (MESSAGE_LIMIT + 1, SEALED_LIMIT + 1, "gives 4", -4),
    ] {
        let ok = sealing(&KEY, 12, 0, size, room) == answer;
        report.line(format_args!("message of {size} bytes {outcome}"), ok)?;
    }
    for (size, room, outcome, answer) in [
        (7, 0, "gives 5", -5),
        (8, 0, "goes on to 7", -7),
        (9, 0, "goes on to 6", -6),
        (SEALED_LIMIT, MESSAGE_LIMIT, "goes on to 7", -7),
        (SEALED_LIMIT + 1, MESSAGE_LIMIT + 1, "gives 4", -4),
    ] {
        let ok = opening(&KEY, 0, size, room) == answer;
        report.line(format_args!("sealed input of {size} bytes {outcome}"), ok)?;
    }
    Ok(())
}

pub fn edges(report: &mut Report<'_, impl Print>) -> io::Result<()> {
    edges_of_the_ad(report)?;
    edges_of_the_text(report)
}

pub fn order(report: &mut Report<'_, impl Print>) -> io::Result<()> {
    report.lines(&[
        (
            "a 15-byte key with a 13-byte nonce gives 1",
            sealing(&[0x5a; 15], 13, 0, 0, 8) == -1,
        ),
        (
            "a 13-byte nonce with a long AD gives 2",
            sealing(&KEY, 13, AD_LIMIT + 1, 0, 8) == -2,
        ),
        (
            "a long AD with a long message gives 3",
            sealing(&KEY, 12, AD_LIMIT + 1, MESSAGE_LIMIT + 1, 8) == -3,
        ),
        (
            "a long message with no room gives 4",
            sealing(&KEY, 12, 0, MESSAGE_LIMIT + 1, 0) == -4,
        ),
        (
            "output one byte short gives 6",
            sealing(&KEY, 12, 0, 5, 12) == -6,
        ),
        (
            "output one byte short gives 6 even if the tag is wrong",
            opening(&KEY, 0, 13, 4) == -6,
        ),
        (
            "with room for it, the wrong tag gives 7",
            opening(&KEY, 0, 13, 5) == -7,
        ),
    ])
}

// The blank key, and keys that are near it.
pub fn blank_key(report: &mut Report<'_, impl Print>) -> io::Result<()> {
    let last_bit = [0, 0, 0, 0, 0, 0, 0, 0, 0, 0, 0, 0, 0, 0, 0, 1];
    report.lines(&[
        (
            "a key of 16 zero bytes gives 15",
            sealing(&BLANK, 12, 0, 0, 8) == -15,
        ),
        (
            "with a 13-byte nonce and a long AD it gives 2",
            sealing(&BLANK, 13, AD_LIMIT + 1, 0, 8) == -2,
        ),
        (
            "with a long AD, a long message and no room it gives 15",
            sealing(&BLANK, 12, AD_LIMIT + 1, MESSAGE_LIMIT + 1, 0) == -15,
        ),
        (
            "with a long AD and a sealed input of 7 bytes it gives 15",
            opening(&BLANK, AD_LIMIT + 1, 7, 0) == -15,
        ),
        (
            "with no room and a wrong tag it gives 15",
            opening(&BLANK, 0, 13, 4) == -15,
        ),
        ("15 zero bytes give 1", sealing(&[0; 15], 12, 0, 0, 8) == -1),
        ("17 zero bytes give 1", opening(&[0; 17], 0, 8, 0) == -1),
        (
            "15 zero bytes and the byte 01 pass",
            sealing(&last_bit, 12, 0, 0, 8) == 8,
        ),
    ])
}

// The largest job, sealed and opened again.
pub fn largest(report: &mut Report<'_, impl Print>) -> io::Result<()> {
    let key = [0x11u8; 16];
    let nonce = [0x22u8; 12];
    let ad = [0x33u8; AD_LIMIT];
    let message = [0x44u8; MESSAGE_LIMIT];
    let mut sealed = [0u8; SEALED_LIMIT];
    let mut opened = [0u8; MESSAGE_LIMIT];
    let count = capi::tikhoplav_seal(&key, &nonce, &ad, &message, &mut sealed);
    report.line(
        format_args!("largest job: sealed to {SEALED_LIMIT} bytes"),
        count == SEALED_LIMIT as i64,
    )?;
    let back = capi::tikhoplav_open(&key, &nonce, &ad, &sealed, &mut opened);
    report.line(
        format_args!("largest job: opened to {MESSAGE_LIMIT} bytes"),
        back == MESSAGE_LIMIT as i64,
    )?;
    report.line("largest job: the message comes back", opened == message)
}
