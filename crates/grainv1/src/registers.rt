// The registers of Grain v1 on words.
ghost use Rattle.std.specs.Prelude.{◌≡◌, ◌++◌, drop};
ghost use Rattle.bits.specs.Bytes.{word};

// Places 0 to 63 of a register are its word 0, the first in the top bit. Places 64 to 79 are the lowest sixteen bits of its word 1; the others of that word
// count for nothing.
#[derive(Clone, Copy)]
pub struct Registers {
    pub lfsr0: u64,
    pub lfsr1: u64,
    pub nfsr0: u64,
    pub nfsr1: u64,
}

// The registers, with the outputs of their clocks shifted into a word.
#[derive(Clone, Copy)]
pub struct Run {
    pub registers: Registers,
    pub outputs: u64,
}

// The last 48 places of a word, and the lowest sixteen bits of another behind them.
pub fn moved(places: u64, behind: u64) -> u64
    ensures { word 64 result ≡ drop 16 (word 64 places) ++ word 16 behind }
{
    (places << 16) | (behind % 0x1_0000)
}
