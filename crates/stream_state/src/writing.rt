// A stream written as eight words of eight bytes.
ghost use Rattle.std.specs.Prelude.{◌≡◌, ◌∷◌, [], ◌++◌};
ghost use Rattle.bits.specs.Bytes.{word, bytes};
ghost use Rattle.startup.specs.Editions as editions;
ghost use Rattle.stream_state.specs.Layout.{two_bytes, spare};
ghost use Rattle.stream_state.specs.Words.{spelled_words};

use machine::edition::Edition;
use stream_checks::counts::Counts;

// The word whose bytes are kind, phase and counts.
pub fn counts_word(c: Counts) -> u64
    ensures { bytes 8 (word 64 result) ≡ (c.kind ∷ c.phase ∷ []) ++ (two_bytes c.announced ++ (two_bytes c.ad ++ two_bytes c.message)) }
{
    let [n1, n0] = c.announced.to_be_bytes();
    let [a1, a0] = c.ad.to_be_bytes();
    let [m1, m0] = c.message.to_be_bytes();
    u64::from_be_bytes([c.kind, c.phase, n1, n0, a1, a0, m1, m0])
}

// The word whose bytes are the edition and the spare bytes.
pub fn edition_word(edition: Edition) -> u64
    ensures { bytes 8 (word 64 result) ≡ editions.number edition ∷ spare }
{
    (edition as u64) << 56
}

// Writes the bytes of words one after the other.
pub fn store(words: &[u64; 8], state: &mut [u8; 64])
    ensures { state.new ≡ spelled_words words.now }
{
    for (i, w) in words.iter().enumerate() {
        let at = i * 8;
        let end = at + 8;
        bits::spell(*w, &mut state[at..end]);
    }
}
