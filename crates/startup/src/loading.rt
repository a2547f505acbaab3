// The key and the nonce, loaded into the registers.
ghost use Rattle.std.specs.Prelude.{◌≡◌, true, false, ◌∷◌, [], ◌++◌, take, drop, replicate};
ghost use Rattle.bits.specs.Bytes.{word};
ghost use Rattle.preoutput.specs.Words.{generator_of};
ghost use Rattle.startup.specs.StartUp.{loaded};
ghost use Rattle.startup.specs.Editions.{bits_in};

use crate::editions;
use machine::edition::Edition;
use preoutput::Registers;

// The last four bytes of the nonce, 31 ones and a zero.
fn last_word(edition: Edition, nonce: &[u8; 12]) -> u64
    ensures { word 64 result ≡ bits_in edition (take 4 (drop 8 nonce.now)) ++ (replicate 31 true ++ (false ∷ [])) }
{
    (editions::ordered(edition, bits::number(&nonce[8..12])) << 32) | 0xffff_fffe
}

pub fn load(edition: Edition, key: &[u8; 16], nonce: &[u8; 12]) -> Registers
    ensures { generator_of result ≡ loaded (bits_in edition key.now) (bits_in edition nonce.now) }
{
    Registers {
        lfsr0: editions::ordered(edition, bits::number(&nonce[..8])),
        lfsr1: last_word(edition, nonce),
        nfsr0: editions::ordered(edition, bits::number(&key[..8])),
        nfsr1: editions::ordered(edition, bits::number(&key[8..])),
    }
}
