// Lines of text and hex digits.
use std::fmt::Display;
use std::{fmt, io};

pub fn title(rt: &impl Print, text: &str) -> io::Result<()> {
    println!(rt; "{text}")
}

// A value with its name before it.
pub fn value(rt: &impl Print, name: &str, shown: impl Display + Drop) -> io::Result<()> {
    println!(rt; "  {name:<20}{shown}")
}

pub fn word(rt: &impl Print, name: &str, w: u64) -> io::Result<()> {
    value(rt, name, format_args!("{w:016x}"))
}

// A register's two words.
pub fn register(rt: &impl Print, name: &str, word0: u64, word1: u64) -> io::Result<()> {
    value(rt, name, format_args!("{word0:016x}{word1:016x}"))
}

// The hex digits of a string.
#[derive(Clone, Copy)]
pub struct Hex<'a>(pub &'a [u8]);

impl Display for Hex<'_> {
    fn fmt<W: fmt::Write>(&self, f: &mut fmt::Formatter<W>) -> fmt::Result {
        for byte in self.0 {
            write!(f, "{byte:02x}")?;
        }
        Ok(())
    }
}
