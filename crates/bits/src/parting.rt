// Bits of two kinds that stand by turns in a word, parted.
ghost use Rattle.std.specs.Prelude.{◌≡◌, ◌++◌};
ghost use Rattle.bits.specs.Bytes.{word};
ghost use Rattle.bits.specs.Strings.{evens, odds};

use crate::exchanging::exchange;

// The places of a word with even numbers, then those with odd numbers: neighbours, pairs, nibbles, bytes and pairs of bytes change places in turn.
pub fn part(x: u64) -> u64
    ensures { word 64 result ≡ evens (word 64 x) ++ odds (word 64 x) }
{
    let neighbours = exchange(x, 1, 0x2222_2222_2222_2222);
    let pairs = exchange(neighbours, 2, 0x0c0c_0c0c_0c0c_0c0c);
    let nibbles = exchange(pairs, 4, 0x00f0_00f0_00f0_00f0);
    let bytes = exchange(nibbles, 8, 0x0000_ff00_0000_ff00);
    exchange(bytes, 16, 0x0000_0000_ffff_0000)
}
