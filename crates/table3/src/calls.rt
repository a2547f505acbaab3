// The columns through the calls.
use crate::report::{Report, hex};
use crate::table::{
    AUTHENTICATED_4, Authenticated, COLUMN_1, COLUMN_2, COLUMN_3, COLUMN_4, CUT_TAGS, Column, Tag,
};
use capi::grain_128a;
use std::io;

impl Column {
    fn crypt(&self, message: &[u8], out: &mut [u8]) -> i64 {
        grain_128a::tikhoplav_grain128a_crypt(&self.key, &self.iv, message, out)
    }

    fn seal(&self, tag_bits: u32, message: &[u8], out: &mut [u8]) -> i64 {
        grain_128a::tikhoplav_grain128a_seal(&self.key, &self.iv, tag_bits, message, out)
    }

    fn open(&self, tag_bits: u32, sealed: &[u8], out: &mut [u8]) -> i64 {
        grain_128a::tikhoplav_grain128a_open(&self.key, &self.iv, tag_bits, sealed, out)
    }
}

// The bytes at the front of a call's output that its answer counts; none where it refused.
fn written(out: &[u8], answer: i64) -> &[u8] {
    let n = usize::try_from(answer).unwrap_or(0).min(out.len());
    &out[..n]
}

// The pre-output stream, added to zeros and then to what that gave.
fn crypted(report: &mut Report<'_, impl Print>, c: &Column) -> io::Result<()> {
    let mut out = [0xeeu8; 40];
    let mut back = [0xeeu8; 40];
    let answer = c.crypt(&[0; 40], &mut out);
    let again = c.crypt(written(&out, answer), &mut back);
    let mut found = [0; 5];
    for (word, bytes) in found.iter_mut().zip(out.chunks_exact(8)) {
        *word = bits::number(bytes);
    }
    report.words(
        c.number,
        "crypt of zeros, pre-output stream",
        &found,
        &c.preoutputs,
    )?;
    let ok = again == 40 && back == [0; 40];
    report.line(c.number, "crypt of these 40 bytes gives zeros", ok)
}

// The keystream, added to zeros.
fn sealed(report: &mut Report<'_, impl Print>, a: &Authenticated) -> io::Result<()> {
    let c = a.column;
    let mut out = [0xeeu8; 20];
    let mut back = [0xeeu8; 16];
    let answer = c.seal(32, &[0; 16], &mut out);
    let again = c.open(32, written(&out, answer), &mut back);
    let found = [bits::number(&out[..8]), bits::number(&out[8..16])];
    report.words(c.number, "seal of zeros, keystream", &found, &a.keystream)?;
    let ok = again == 16 && back == [0; 16];
    report.line(
        c.number,
        "open of these 16 bytes and the tag gives zeros",
        ok,
    )
}

// A tag of m0, sealed and opened.
fn sealed_tag(report: &mut Report<'_, impl Print>, c: &Column, tag: Tag) -> io::Result<()> {
    let mut out = [0xeeu8; 5];
    let mut back = [0xeeu8; 1];
    let answer = c.seal(tag.bits, b"", &mut out);
    let again = c.open(tag.bits, written(&out, answer), &mut back);
    let tag_bits = tag.bits;
    let cell = hex(2, bits::number(written(&out, tag.size)), tag.bytes);
    report.cell(
        c.number,
        format_args!("seal with tag_bits {tag_bits}, tag(m0)"),
        cell,
    )?;
    let ok = answer == tag.size && again == 0;
    report.line(c.number, "open of this tag gives m0", ok)
}

// The answers for m0.
fn crypt_empty(c: &Column) -> i64 {
    c.crypt(b"", &mut [0xee; 4])
}

fn seal_empty(c: &Column) -> i64 {
    c.seal(32, b"", &mut [0xee; 4])
}

// The blank key, and the nonces of the other mode.
fn refused(report: &mut Report<'_, impl Print>) -> io::Result<()> {
    for (column, outcome, ok) in [
        (1, "crypt gives -15", crypt_empty(&COLUMN_1) == -15),
        (1, "seal gives -15", seal_empty(&COLUMN_1) == -15),
        (2, "seal gives -19", seal_empty(&COLUMN_2) == -19),
        (3, "crypt gives -15", crypt_empty(&COLUMN_3) == -15),
        (3, "seal gives -15", seal_empty(&COLUMN_3) == -15),
        (4, "crypt gives -19", crypt_empty(&COLUMN_4) == -19),
    ] {
        report.line(column, outcome, ok)?;
    }
    Ok(())
}

pub fn run(report: &mut Report<'_, impl Print>) -> io::Result<()> {
    crypted(report, &COLUMN_2)?;
    sealed(report, &AUTHENTICATED_4)?;
    for tag in CUT_TAGS {
        sealed_tag(report, &COLUMN_4, tag)?;
    }
    refused(report)
}
