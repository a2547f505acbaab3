// Prints a line for each cell of the table and each call, which names the column and the row, and counts those that came out as expected
// and those that did not.
use std::fmt::Display;
use std::{fmt, io};

// How a number came out, to be shown in so many hex digits, and what was expected where that is something else.
#[derive(Clone, Copy)]
pub struct Compared {
    digits: usize,
    found: u64,
    expected: u64,
}

pub fn hex(digits: usize, found: u64, expected: u64) -> Compared {
    Compared {
        digits,
        found,
        expected,
    }
}

impl Display for Compared {
    fn fmt<W: fmt::Write>(&self, f: &mut fmt::Formatter<W>) -> fmt::Result {
        let digits = self.digits;
        let found = self.found;
        let expected = self.expected;
        write!(f, "{found:0digits$x}")?;
        if found != expected {
            write!(f, " and not {expected:0digits$x}")?;
        }
        Ok(())
    }
}

#[derive(Drop)]
pub struct Report<'a, P: Print> {
    rt: &'a P,
    good: u32,
    bad: u32,
}

impl<'a, P: Print> Report<'a, P> {
    pub fn new(rt: &'a P) -> Self {
        Report {
            rt,
            good: 0,
            bad: 0,
        }
    }

    // What a call does.
    pub fn line(&mut self, column: usize, name: impl Display + Drop, ok: bool) -> io::Result<()> {
        let verdict = if ok { "as expected" } else { "NOT" };
        println!(self.rt; "{verdict:<11}  column {column}, {name}")?;
        let count = if ok { &mut self.good } else { &mut self.bad };
        *count = count.wrapping_add(1);
        Ok(())
    }

    pub fn cell(
        &mut self,
        column: usize,
        row: impl Display + Drop,
        cell: Compared,
    ) -> io::Result<()> {
        let ok = cell.found == cell.expected;
        self.line(column, format_args!("{row}: {cell}"), ok)
    }

    // The words of a row, numbered from 1.
    pub fn words(
        &mut self,
        column: usize,
        row: &str,
        found: &[u64],
        expected: &[u64],
    ) -> io::Result<()> {
        for (i, (word, wanted)) in found.iter().zip(expected).enumerate() {
            let n = i + 1;
            let cell = hex(16, *word, *wanted);
            self.cell(column, format_args!("{row}, word {n}"), cell)?;
        }
        Ok(())
    }

    pub fn close(&self) -> io::Result<()> {
        println!(self.rt; "{} as expected, {} not", self.good, self.bad)
    }
}
