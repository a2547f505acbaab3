// The published functions at sixteen clocks: each place is the first of a window of sixteen, and the lowest sixteen bits of the result are the function's
// values at these clocks.
ghost use Rattle.std.specs.Prelude.{◌≡◌, ◌++◌, drop};
ghost use Rattle.bits.specs.Bytes.{word};
ghost use Rattle.generators.specs.Algebra.{words};
ghost use Rattle.grainv1.specs.Functions.{L, F, h, z};
ghost use Rattle.grainv1.specs.Words.{window};

use crate::registers;

// The words have a register's places from 0 and from 16 on.
#[derive(Clone, Copy)]
pub struct Windows(pub u64, pub u64);

impl Windows {
    // Of a register in two words.
    pub fn of(word0: u64, word1: u64) -> Windows
        ensures { (result.0 ≡ word0) × (word 64 result.1 ≡ drop 16 (word 64 word0) ++ word 16 word1) }
    {
        Windows(word0, registers::moved(word0, word1))
    }

    // Sixteen places from place k on, at the lower end of a word.
    fn place(self, k: u32) -> u64
        ensures { result ≡ window self.0 self.1 k }
    {
        if k < 16 {
            self.0 >> (48 - k)
        } else {
            self.1 >> 64u32.saturating_sub(k)
        }
    }
}

pub fn linear(s: Windows) -> u64
    ensures { result ≡ L words (window s.0 s.1) }
{
    s.place(62) ^ s.place(51) ^ s.place(38) ^ s.place(23) ^ s.place(13) ^ s.place(0)
}

pub fn nonlinear(b: Windows) -> u64
    ensures { result ≡ F words (window b.0 b.1) }
{
    b.place(62)
        ^ b.place(60)
        ^ b.place(52)
        ^ b.place(45)
        ^ b.place(37)
        ^ b.place(33)
        ^ b.place(28)
        ^ b.place(21)
        ^ b.place(14)
        ^ b.place(9)
        ^ b.place(0)
        ^ (b.place(63) & b.place(60))
        ^ (b.place(37) & b.place(33))
        ^ (b.place(15) & b.place(9))
        ^ (b.place(60) & b.place(52) & b.place(45))
        ^ (b.place(33) & b.place(28) & b.place(21))
        ^ (b.place(63) & b.place(45) & b.place(28) & b.place(9))
        ^ (b.place(60) & b.place(52) & b.place(37) & b.place(33))
        ^ (b.place(63) & b.place(60) & b.place(21) & b.place(15))
        ^ (b.place(63) & b.place(60) & b.place(52) & b.place(45) & b.place(37))
        ^ (b.place(33) & b.place(28) & b.place(21) & b.place(15) & b.place(9))
        ^ (b.place(52) & b.place(45) & b.place(37) & b.place(33) & b.place(28) & b.place(21))
}

fn h(x0: u64, x1: u64, x2: u64, x3: u64, x4: u64) -> u64
    ensures { result ≡ h words x0 x1 x2 x3 x4 }
{
    x1 ^ x4
        ^ (x0 & x3)
        ^ (x2 & x3)
        ^ (x3 & x4)
        ^ (x0 & x1 & x2)
        ^ (x0 & x2 & x3)
        ^ (x0 & x2 & x4)
        ^ (x1 & x2 & x4)
        ^ (x2 & x3 & x4)
}

pub fn output(s: Windows, b: Windows) -> u64
    ensures { result ≡ z words (window s.0 s.1) (window b.0 b.1) }
{
    let filter = h(
        s.place(3),
        s.place(25),
        s.place(46),
        s.place(64),
        b.place(63),
    );
    filter
        ^ b.place(1)
        ^ b.place(2)
        ^ b.place(4)
        ^ b.place(10)
        ^ b.place(31)
        ^ b.place(43)
        ^ b.place(56)
}
