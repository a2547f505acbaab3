// A register at 32 clocks: each place is the first of a window of 32, and a function's value has its values at these clocks in its
// lowest 32 bits.
ghost use Rattle.std.specs.Prelude.{◌++◌};
ghost use Rattle.bits.specs.Bytes.{word};
ghost use Rattle.generators.specs.Windows as windows;
ghost use Rattle.strokes.specs.Windows.{window};

use preoutput::taps::Places;

// The words have a register's places from 0, from 32 and from 64 on.
#[derive(Clone, Copy)]
pub struct Windows(pub u64, pub u64, pub u64);

impl Windows {
    // Of a register in two words.
    pub fn of(word0: u64, word1: u64) -> Windows
        ensures { windows.Windows 32 97 (word 64 word0 ++ word 64 word1) (window result.0 result.1 result.2) }
    {
        Windows(word0, bits::slide(word0, word1, 32), word1)
    }
}

impl Places for Windows {
    ghost at = { λ s. window s.0 s.1 s.2 };

    fn place(self, k: u32) -> u64 {
        if k < 32 {
            self.0 >> (32 - k)
        } else if k < 64 {
            self.1 >> (64 - k)
        } else {
            self.2 >> 96u32.saturating_sub(k)
        }
    }
}
