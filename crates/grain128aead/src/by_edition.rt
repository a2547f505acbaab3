// Sealing and opening in an edition.
ghost use Rattle.std.specs.Prelude.{◌≡◌};
ghost use Rattle.refusals.specs.Outcome.{outcome};
ghost use Rattle.payload.specs.Payload.{payload};
ghost use Rattle.checks.specs.Order.{order};
ghost use Rattle.grain128aead.specs.Calls as calls;
ghost use Rattle.checks.specs.Demand1.{Demand1};
ghost use Rattle.grain128aead.specs.Demand2.{Sealing, Demand2};
ghost use Rattle.grain128aead.specs.Demand3.{Demand3};
ghost use Rattle.grain128aead.specs.Substitution.{Substitution};

use crate::sizes::AD_LIMIT;
use limits::MESSAGE_LIMIT;
use machine::edition::Edition;
use payload::header;
use refusals::Refusal;
use strokes::streams::Taken;

// Seals a message: the ciphertext and then the tag, at the front of the output.
pub fn seal(
    edition: Edition,
    key: &[u8],
    nonce: &[u8],
    ad: &[u8],
    message: &[u8],
    out: &mut [u8],
) -> Result<usize, Refusal>
    ensures sealed { outcome result out.new ≡ calls.sealed edition key.now nonce.now ad.now message.now out.old }
    ensures demand1 { Demand1 order (calls.sealing_row key.now nonce.now ad.now message.now out.old) (payload edition key.now nonce.now ad.now message.now) out.old (outcome result out.new) }
    ensures demand2 { Sealing edition key.now nonce.now ad.now message.now out.old (outcome result out.new) }
{
    let n = message.len();
    let too_long = MESSAGE_LIMIT < n;
    let no_room = out.len() < n + 8;
    checks::judge(key, nonce, ad, AD_LIMIT, too_long, false, no_room)?;
    // No row applied: key and nonce have their sizes.
    let begun = header::begin(
        edition,
        key.try_into().unwrap(),
        nonce.try_into().unwrap(),
        ad,
    );
    let done = strings::encipher_all(begun, message, out);
    let end = n + 8;
    bits::spell(payload::tag::finish(done), &mut out[n..end]);
    Ok(end)
}

// Opens a sealed input: the message, at the front of the output. The tag is computed first, and nothing is written before it holds.
pub fn open(
    edition: Edition,
    key: &[u8],
    nonce: &[u8],
    ad: &[u8],
    input: &[u8],
    out: &mut [u8],
) -> Result<usize, Refusal>
    ensures opened { outcome result out.new ≡ calls.opened edition key.now nonce.now ad.now input.now out.old }
    ensures demand1 { Demand1 order (calls.opening_row edition key.now nonce.now ad.now input.now out.old) (calls.recovered edition key.now nonce.now ad.now input.now) out.old (outcome result out.new) }
    ensures demand2 { Demand2 edition key.now nonce.now ad.now input.now out.old (outcome result out.new) }
    ensures demand3 { Demand3 edition key.now nonce.now ad.now input.now out.old (outcome result out.new) }
    ensures substitution { Substitution edition key.now nonce.now ad.now input.now out.old (outcome result out.new) }
{
    let n = input.len();
    let too_long = MESSAGE_LIMIT + 8 < n;
    let too_short = n < 8;
    let no_room = out.len() + 8 < n;
    checks::judge(key, nonce, ad, AD_LIMIT, too_long, too_short, no_room)?;
    let ciphertext = payload::parts::ciphertext_part(input);
    // No row applied: key and nonce have their sizes.
    let begun = header::begin(
        edition,
        key.try_into().unwrap(),
        nonce.try_into().unwrap(),
        ad,
    );
    let done = strings::decipher_all(begun, ciphertext);
    if payload::tag::finish(done) != bits::number(payload::parts::tag_part(input)) {
        return Err(Refusal::TagDiffers);
    }
    strings::add_keystream(
        edition,
        Taken::EverySecond,
        begun.registers,
        ciphertext,
        out,
    );
    Ok(n - 8)
}
