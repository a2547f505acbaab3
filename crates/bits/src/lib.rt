// Bits, bytes and words: the layer below the registers. A register's word has its first place in its top bit.
#![tactic(auto)]

mod exchanging;
pub mod parting;
pub mod turning;

ghost use Rattle.std.specs.Prelude.{◌≡◌, ◌*◌, ◌%◌, ◌^◌, ◌++◌, length, take, drop};
ghost use Rattle.bits.specs.Bytes.{word, value, bits, bytes, lowest};
ghost use Rattle.bits.specs.Strings.{shift};

// The word moved one place down, with the lowest bit of `new` in its last place.
pub fn shift_in(places: u64, new: u64) -> u64
    ensures { word 64 result ≡ shift (word 64 places) (lowest new) }
{
    (places << 1) | (new % 2)
}

// Sixty-four places of two words that follow one another, from place n on; n counts modulo 64.
pub fn slide(word0: u64, word1: u64, n: usize) -> u64
    ensures { word 64 result ≡ drop (n % 64) (word 64 word0) ++ take (n % 64) (word 64 word1) }
{
    let k = n & 63;
    (word0 << k) | ((word1 >> 1) >> (63 - k))
}

pub fn wide(x: u8) -> u64
    ensures { result ≡ x }
{
    x as u64
}

// The number that a byte string spells, high byte first; of a string of more than eight bytes, its last eight.
pub fn number(s: &[u8]) -> u64
    ensures { result ≡ value (bits s.now) % 2 ^ 64 }
{
    s.iter().fold(0, |n, byte| (n << 8) | wide(*byte))
}

// Fills a byte string with the lowest bytes of a word, high byte first; what is above the word's eight bytes is zeros.
pub fn spell(w: u64, out: &mut [u8])
    ensures { out.new ≡ bytes (length out.old) (word (8 * length out.old) w) }
{
    let mut rest = w;
    for i in (0..out.len()).rev() {
        out[i] = (rest % 256) as u8;
        rest >>= 8;
    }
}
