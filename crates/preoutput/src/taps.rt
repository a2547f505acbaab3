// The published functions on words. What stands at a place comes moved to the lower end of a word, and the lower end of the result is the
// function's value.
ghost use Rattle.std.specs.Prelude.{◌≡◌, ℕ};
ghost use Rattle.generators.specs.Algebra.{words};
ghost use Rattle.preoutput.specs.Functions.{L, F, y};
ghost use Rattle.preoutput.specs.Words.{tap};

// The places of a register, each moved to the lower end of a word.
pub trait Places: Copy {
    ghost at: { Self → ℕ → ℕ };

    fn place(self, k: u32) -> u64
        ensures { result ≡ at self k };
}

// Each place as the lowest bit.
#[derive(Clone, Copy)]
pub struct Taps(pub u64, pub u64);

impl Places for Taps {
    ghost at = { λ s. tap s.0 s.1 };

    fn place(self, k: u32) -> u64 {
        if k < 64 {
            self.0 >> (63 - k)
        } else if k < 128 {
            self.1 >> (127 - k)
        } else {
            0
        }
    }
}

pub fn linear<P: Places>(s: P) -> u64
    ensures { result ≡ L words (P.at s) }
{
    s.place(0) ^ s.place(7) ^ s.place(38) ^ s.place(70) ^ s.place(81) ^ s.place(96)
}

pub fn nonlinear<P: Places>(b: P) -> u64
    ensures { result ≡ F words (P.at b) }
{
    b.place(0)
        ^ b.place(26)
        ^ b.place(56)
        ^ b.place(91)
        ^ b.place(96)
        ^ (b.place(3) & b.place(67))
        ^ (b.place(11) & b.place(13))
        ^ (b.place(17) & b.place(18))
        ^ (b.place(27) & b.place(59))
        ^ (b.place(40) & b.place(48))
        ^ (b.place(61) & b.place(65))
        ^ (b.place(68) & b.place(84))
        ^ (b.place(22) & b.place(24) & b.place(25))
        ^ (b.place(70) & b.place(78) & b.place(82))
        ^ (b.place(88) & b.place(92) & b.place(93) & b.place(95))
}

pub fn output<P: Places>(s: P, b: P) -> u64
    ensures { result ≡ y words (P.at s) (P.at b) }
{
    (b.place(12) & s.place(8))
        ^ (s.place(13) & s.place(20))
        ^ (b.place(95) & s.place(42))
        ^ (s.place(60) & s.place(79))
        ^ (b.place(12) & b.place(95) & s.place(94))
        ^ s.place(93)
        ^ b.place(2)
        ^ b.place(15)
        ^ b.place(36)
        ^ b.place(45)
        ^ b.place(64)
        ^ b.place(73)
        ^ b.place(89)
}
