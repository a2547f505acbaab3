// Grain-128AEAD: sealing and opening of whole byte strings. Where no edition is named, it is the first.
#![tactic(auto)]

pub mod by_edition;
pub mod sizes;

ghost use Rattle.std.specs.Prelude.{◌≡◌};
ghost use Rattle.refusals.specs.Outcome.{outcome};
ghost use Rattle.grain128aead.specs.FirstEdition as calls;
ghost use Rattle.grain128aead.specs.FirstEdition.{payload, Demand1, Sealing, Demand2, Demand3, Substitution};

use machine::edition::Edition;
use refusals::Refusal;

// Seals a message: the ciphertext and then the tag, at the front of the output.
pub fn seal(
    key: &[u8],
    nonce: &[u8],
    ad: &[u8],
    message: &[u8],
    out: &mut [u8],
) -> Result<usize, Refusal>
    ensures sealed { outcome result out.new ≡ calls.sealed key.now nonce.now ad.now message.now out.old }
    ensures demand1 { Demand1 (calls.sealing_row key.now nonce.now ad.now message.now out.old) (payload key.now nonce.now ad.now message.now) out.old (outcome result out.new) }
    ensures demand2 { Sealing key.now nonce.now ad.now message.now out.old (outcome result out.new) }
{
    by_edition::seal(Edition::First, key, nonce, ad, message, out)
}

// Opens a sealed input: the message, at the front of the output. The tag is computed first, and nothing is written before it holds.
pub fn open(
    key: &[u8],
    nonce: &[u8],
    ad: &[u8],
    input: &[u8],
    out: &mut [u8],
) -> Result<usize, Refusal>
    ensures opened { outcome result out.new ≡ calls.opened key.now nonce.now ad.now input.now out.old }
    ensures demand1 { Demand1 (calls.opening_row key.now nonce.now ad.now input.now out.old) (calls.recovered key.now nonce.now ad.now input.now) out.old (outcome result out.new) }
    ensures demand2 { Demand2 key.now nonce.now ad.now input.now out.old (outcome result out.new) }
    ensures demand3 { Demand3 key.now nonce.now ad.now input.now out.old (outcome result out.new) }
    ensures substitution { Substitution key.now nonce.now ad.now input.now out.old (outcome result out.new) }
{
    by_edition::open(Edition::First, key, nonce, ad, input, out)
}
