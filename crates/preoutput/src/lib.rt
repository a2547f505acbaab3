// The pre-output generator, the LFSR and the NFSR, on words, with its plain engine.
#![tactic(auto)]

pub mod added;
pub mod plain;
pub mod taps;

ghost use Rattle.std.specs.Prelude.{◌≡◌};

// Places 0 to 63 of a register are its word 0, places 64 to 127 its word 1. The first place of a word is its top bit.
#[derive(Clone, Copy, PartialEq, Eq)]
pub struct Registers {
    pub lfsr0: u64,
    pub lfsr1: u64,
    pub nfsr0: u64,
    pub nfsr1: u64,
}

// The registers, with the pre-outputs of their clocks shifted into a word.
#[derive(Clone, Copy, PartialEq, Eq)]
pub struct Run {
    pub registers: Registers,
    pub outputs: u64,
}

impl Run {
    // Before the first clock, with no pre-outputs yet.
    pub fn begun(registers: Registers) -> Run
        ensures { result ≡ record { registers = registers; outputs = 0 } }
    {
        Run {
            registers,
            outputs: 0,
        }
    }
}

// What clocks add to the new bits: the pre-output to both if it is fed back, and to those of a register the places of its two words in
// turn, then zeros.
#[derive(Clone, Copy)]
pub struct Adding {
    pub fed: bool,
    pub lfsr0: u64,
    pub lfsr1: u64,
    pub nfsr0: u64,
    pub nfsr1: u64,
}

impl Adding {
    // Nothing, as in plain running.
    pub const NOTHING: Adding = Adding {
        fed: false,
        lfsr0: 0,
        lfsr1: 0,
        nfsr0: 0,
        nfsr1: 0,
    };

    // The pre-output to both, and nothing else.
    pub const FED_BACK: Adding = Adding {
        fed: true,
        ..Adding::NOTHING
    };
}
