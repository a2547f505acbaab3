// Payloads of both editions from the same inputs.
use crate::inputs::{KEY, NONCE, counting};
use crate::shown::{self, Hex};
use grain128aead::by_edition;
use machine::edition::Edition;
use std::io;

const EDITIONS: [(&str, Edition); 2] = [
    ("edition 1", Edition::First),
    ("edition 2", Edition::Second),
];

// The payload, where there is room for it.
fn sealed(
    rt: &impl Print,
    name: &str,
    edition: Edition,
    ad: &[u8],
    message: &[u8],
) -> io::Result<()> {
    let mut out = [0u8; 64];
    match by_edition::seal(edition, &KEY, &NONCE, ad, message, &mut out) {
        Ok(n) => shown::value(rt, name, Hex(&out[..n])),
        Err(_) => shown::title(rt, "  refused"),
    }
}

fn both(rt: &impl Print, title: &str, ad: &[u8], message: &[u8]) -> io::Result<()> {
    shown::title(rt, title)?;
    for (name, edition) in EDITIONS {
        sealed(rt, name, edition, ad, message)?;
    }
    Ok(())
}

// The coded length of the AD has one byte, at last two and three.
fn payloads(rt: &impl Print) -> io::Result<()> {
    both(rt, "no AD, no message", b"", b"")?;
    both(rt, "AD a5, message 3c", &[0xa5], &[0x3c])?;
    both(
        rt,
        "AD of 8 counting bytes, message of 16",
        &counting::<8>(),
        &counting::<16>(),
    )?;
    both(
        rt,
        "AD of 128 counting bytes, message hello",
        &counting::<128>(),
        b"hello",
    )?;
    both(
        rt,
        "AD of 256 counting bytes, message of 37",
        &counting::<256>(),
        &counting::<37>(),
    )
}

// The tag of no AD and no message under a key and a nonce of zeros, on the machine below the calls, which refuse that key.
fn under_zeros(rt: &impl Print) -> io::Result<()> {
    shown::title(
        rt,
        "tag of no AD and no message under a key and a nonce of zeros",
    )?;
    for (name, edition) in EDITIONS {
        let begun = payload::header::begin(edition, &[0u8; 16], &[0u8; 12], b"");
        shown::word(rt, name, payload::tag::finish(begun))?;
    }
    Ok(())
}

pub fn all(rt: &impl Print) -> io::Result<()> {
    under_zeros(rt)?;
    payloads(rt)
}
