// Prints a line for each thing that is tried, and counts those that came out as expected and those that did not.
use std::fmt::Display;
use std::io;

#[derive(Drop)]
pub struct Report<'a, P: Print> {
    rt: &'a P,
    good: u32,
    bad: u32,
}

impl<'a, P: Print> Report<'a, P> {
    pub fn new(rt: &'a P) -> Self {
        Report {
            rt,
            good: 0,
            bad: 0,
        }
    }

    pub fn line(&mut self, name: impl Display + Drop, ok: bool) -> io::Result<()> {
        let verdict = if ok { "as expected" } else { "NOT" };
        println!(self.rt; "{verdict:<11}  {name}")?;
        let count = if ok { &mut self.good } else { &mut self.bad };
        *count = count.wrapping_add(1);
        Ok(())
    }

    pub fn lines(&mut self, tried: &[(&str, bool)]) -> io::Result<()> {
        for (name, ok) in tried {
            self.line(name, *ok)?;
        }
        Ok(())
    }

    // A line that shows a word and is not counted.
    pub fn word(&self, name: impl Display + Drop, shown: u64) -> io::Result<()> {
        println!(self.rt; "             {name}: {shown:016x}")
    }

    pub fn close(&self) -> io::Result<()> {
        println!(self.rt; "{} as expected, {} not", self.good, self.bad)
    }
}
