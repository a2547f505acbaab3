// Two tags under one key and nonce, of pairs of AD and message of different lengths (document 02, C-23). Their sum is the sum of the
// registers at the positions where the two authenticated strings differ, the shorter one continued with zeros.
ghost use Rattle.std.specs.Prelude.{◌≤◌, length};

use crate::published::{KEY, NONCE};
use crate::report::Report;
use machine::edition::Edition;
use machine::engine::Engine;
use preoutput::{Adding, Run, plain};
use std::io;

// The bits of the longest string here, with the zeros behind its final 1.
const LONGEST: usize = 96;

// A string's byte; past its end, zero.
fn byte(s: &[u8], i: usize) -> u8 {
    s.get(i).copied().unwrap_or(0)
}

fn differ(s: &[u8], t: &[u8], position: usize) -> bool {
    let i = position / 8;
    let bits = byte(s, i) ^ byte(t, i);
    (bits >> (7 - position % 8)) % 2 == 1
}

// The machine after a zero of the string, clock by clock: the lowest of the two pre-outputs is that of the second clock.
fn next(e: Engine) -> Engine {
    let clocked = plain::run(Run::begun(e.registers), Adding::NOTHING, 2);
    Engine {
        registers: clocked.registers,
        tagger: authenticator::absorb(e.tagger, 0, clocked.outputs),
        ..e
    }
}

// The register at each position.
fn registers() -> [u64; LONGEST] {
    let mut now = startup::start(Edition::First, &KEY, &NONCE);
    [(); LONGEST].map(|_| {
        let register = now.tagger.register;
        now = next(now);
        register
    })
}

// The sum of the registers at the positions where two strings differ.
fn sum_at_differences(registers: &[u64; LONGEST], s: &[u8], t: &[u8]) -> u64 {
    registers
        .iter()
        .enumerate()
        .filter(|(i, _)| differ(s, t, *i))
        .fold(0, |sum, (_, register)| sum ^ register)
}

// The tag of an AD and a message, as sealing gives it.
fn tag(ad: &[u8], message: &[u8]) -> u64
    requires { length message.now ≤ 8 }
{
    let mut sealed = [0u8; 16];
    capi::tikhoplav_seal(&KEY, &NONCE, ad, message, &mut sealed);
    let n = message.len();
    bits::number(&sealed[n..n + 8])
}

// The string of AD A5 and message 3C: the coded length, the AD, the message, and the final 1 with seven zeros behind it.
const FIRST: [u8; 4] = [0x01, 0xa5, 0x3c, 0x80];

// Against AD A5 3C and message 80 00.
fn few_positions(report: &mut Report<'_, impl Print>) -> io::Result<()> {
    let string = [0x02, 0xa5, 0x3c, 0x80, 0x00, 0x80];
    let first = tag(&[0xa5], &[0x3c]);
    let second = tag(&[0xa5, 0x3c], &[0x80, 0x00]);
    report.word("tag of AD A5, message 3C", first)?;
    report.word("tag of AD A5 3C, message 80 00", second)?;
    let registers = registers();
    for (i, register) in registers.iter().enumerate() {
        if differ(&FIRST, &string, i) {
            report.word(format_args!("register at position {i}"), *register)?;
        }
    }
    let sum = sum_at_differences(&registers, &FIRST, &string);
    report.word("sum of these registers", sum)?;
    report.word("sum of the two tags", first ^ second)?;
    report.line("the two sums are equal", sum == first ^ second)
}

// Against AD A5 3C and a message that solves the 64 equations.
fn equal_tags(report: &mut Report<'_, impl Print>) -> io::Result<()> {
    let message = [0x81, 0x29, 0x44, 0xed, 0xc3, 0x15, 0x7a, 0xd6];
    let string = [
        0x02, 0xa5, 0x3c, 0x81, 0x29, 0x44, 0xed, 0xc3, 0x15, 0x7a, 0xd6, 0x80,
    ];
    let first = tag(&[0xa5], &[0x3c]);
    let second = tag(&[0xa5, 0x3c], &message);
    let sum = sum_at_differences(&registers(), &FIRST, &string);
    report.word("tag of AD A5 3C, message 81 29 44 ED C3 15 7A D6", second)?;
    report.word(
        "sum of the registers where its string differs from the first",
        sum,
    )?;
    report.line(
        "this sum is zero, and the tags are equal",
        sum == 0 && first == second,
    )
}

pub fn run(report: &mut Report<'_, impl Print>) -> io::Result<()> {
    few_positions(report)?;
    equal_tags(report)
}
