// Which number names an edition, and what differs between the editions: the order of bits in a byte, the clocks before those that
// fill accumulator and register, what these add, and the clock at which running starts.
ghost use Rattle.std.specs.Prelude.{◌≡◌, cond, Some, None, ◌∷◌, []};
ghost use Rattle.bits.specs.Bytes.{word};
ghost use Rattle.preoutput.specs.Words.{generator_of};
ghost use Rattle.startup.specs.Editions as editions;
ghost use Rattle.startup.specs.Naming as naming;
ghost use Rattle.startup.specs.Filling.{Orders};

use crate::feeding;
use machine::edition::Edition;
use preoutput::Registers;

// The edition that a number names, if it names one.
#[tactic(auto, using(std::proofs::lemmas::Bool::Decides::nat_tests), unfolding(crate::specs::Naming::known, crate::specs::Naming::named))]
pub fn by_number(n: u32) -> Option<Edition>
    ensures { result ≡ cond (naming.known n) (Some (naming.named n)) None }
{
    match n {
        1 => Some(Edition::First),
        2 => Some(Edition::Second),
        _ => None,
    }
}

// Whether a number names an edition.
pub fn known(n: u32) -> bool
    ensures { result ≡ naming.known n }
{
    by_number(n).is_some()
}

// The edition that a number names.
#[tactic(auto, using(std::proofs::lemmas::Bool::Decides::nat_tests), unfolding(crate::specs::Naming::known, crate::specs::Naming::named))]
pub fn named(n: u32) -> Edition
    ensures { result ≡ naming.named n }
{
    by_number(n).unwrap_or(Edition::First)
}

// The word whose bytes are those of `w` with their bits in the edition's order.
pub fn ordered(edition: Edition, w: u64) -> u64
    ensures { Orders edition w result }
{
    match edition {
        Edition::First => w,
        Edition::Second => bits::turning::turn(w),
    }
}

// A byte with its bits in the edition's order.
pub fn ordered_byte(edition: Edition, b: u8) -> u8
    ensures { word 8 result ≡ editions.bits_in edition (b ∷ []) }
{
    (ordered(edition, bits::wide(b)) % 256) as u8
}

// From the loaded registers to those before the clocks that fill. The loaded NFSR is the key.
pub fn warm(edition: Edition, loaded: Registers) -> Registers
    ensures { generator_of result ≡ editions.warmed edition (generator_of «loaded»).nfsr (generator_of «loaded») }
{
    match edition {
        Edition::First => feeding::feed_back(loaded, 256),
        Edition::Second => {
            let fed_back = feeding::feed_back(loaded, 320);
            feeding::feed_back_with(fed_back, loaded.nfsr1, loaded.nfsr0)
        }
    }
}

// What the clocks that fill a word add to the new LFSR bits, from that word of the key.
pub fn filler(edition: Edition, key: u64) -> u64
    ensures { word 64 result ≡ editions.filling edition (word 64 key) }
{
    match edition {
        Edition::First => key,
        Edition::Second => 0,
    }
}

// The clock at which running starts.
pub fn running_from(edition: Edition) -> usize
    ensures { result ≡ editions.running_from edition }
{
    match edition {
        Edition::First => 384,
        Edition::Second => 512,
    }
}
