// The authenticator: the accumulator and its register, on words.
#![tactic(auto)]

mod products;

ghost use Rattle.std.specs.Prelude.{◌≡◌};
ghost use Rattle.bits.specs.Bytes.{lowest, word};
ghost use Rattle.bits.specs.Strings.{places};
ghost use Rattle.authenticator.specs.Authenticator as authenticator;
ghost use Rattle.authenticator.specs.Words.{authenticator_of};

// Place 0 of the accumulator and of the register is the top bit of its word.
#[derive(Clone, Copy)]
pub struct Tagger {
    pub accumulator: u64,
    pub register: u64,
}

// One bit of the string, the lowest of `m`; the register then takes the lowest bit of `new`.
pub fn absorb(t: Tagger, m: u64, new: u64) -> Tagger
    ensures { authenticator_of result ≡ authenticator.absorb (authenticator_of t) (lowest m) (lowest new) }
{
    let register = bits::shift_in(t.register, new);
    let accumulator = if m % 2 == 1 {
        t.accumulator ^ t.register
    } else {
        t.accumulator
    };
    Tagger {
        accumulator,
        register,
    }
}

// The eight lowest bits of `m`, the highest first; the register takes those of `new`.
pub fn absorb_byte(t: Tagger, m: u64, new: u64) -> Tagger
    ensures { authenticator_of result ≡ authenticator.absorb_all (authenticator_of t) (word 8 m) (places (word 8 new)) }
{
    let mut now = t;
    for left in (0..8u32).rev() {
        now = absorb(now, m >> left, new >> left);
    }
    now
}

// The 32 lowest bits of `m`, the highest first; the register takes those of `new`.
pub fn absorb_word(t: Tagger, m: u64, new: u64) -> Tagger
    ensures { authenticator_of result ≡ authenticator.absorb_all (authenticator_of t) (word 32 m) (places (word 32 new)) }
{
    let low = new % 0x1_0000_0000;
    Tagger {
        accumulator: t.accumulator
            ^ products::product(t.register, m)
            ^ (products::product(low, m) >> 32),
        register: (t.register << 32) | low,
    }
}
