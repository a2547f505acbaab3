// Grain-128a, with authentication and without, over whole byte strings.
#![tactic(auto)]

mod beginning;
pub mod starting;
mod tag;

ghost use Rattle.std.specs.Prelude.{◌≡◌};
ghost use Rattle.refusals.specs.Refusals.{among};
ghost use Rattle.refusals.specs.Outcome.{outcome};
ghost use Rattle.checks.specs.Demand1.{Demand1};
ghost use Rattle.mode_checks.specs.Order as order;
ghost use Rattle.grain128a.specs.Payload.{payload, with_keystream};
ghost use Rattle.grain128a.specs.Calls as calls;
ghost use Rattle.grain128a.specs.Demand2.{Sealing, Demand2, Crypting};
ghost use Rattle.grain128a.specs.Demand3.{Demand3, PastTag};

use limits::MESSAGE_LIMIT;
use machine::edition::Edition;
use refusals::Refusal;
use strokes::streams::Taken;

// Seals a message: the ciphertext and then the tag, of so many bits, at the front of the output.
pub fn seal(
    key: &[u8],
    nonce: &[u8],
    tag_bits: u32,
    message: &[u8],
    out: &mut [u8],
) -> Result<usize, Refusal>
    ensures sealed { outcome result out.new ≡ calls.sealed tag_bits key.now nonce.now message.now out.old }
    ensures demand1 { Demand1 order.authenticated (among (calls.sealing_rows tag_bits key.now nonce.now message.now out.old)) (payload tag_bits key.now nonce.now message.now) out.old (outcome result out.new) }
    ensures demand2 { Sealing tag_bits key.now nonce.now message.now out.old (outcome result out.new) }
{
    let n = message.len();
    let size = tag::size(tag_bits);
    let too_long = MESSAGE_LIMIT < n;
    let no_room = out.len() < n + size;
    mode_checks::judge_authenticated(key, nonce, tag_bits, too_long, false, no_room)?;
    // No row applied: key and nonce have their sizes.
    let begun = beginning::begin(key.try_into().unwrap(), nonce.try_into().unwrap());
    let done = strings::encipher_all(begun, message, out);
    let end = n + size;
    bits::spell(tag::finish(done, tag_bits), &mut out[n..end]);
    Ok(end)
}

// Opens a sealed input with a tag of so many bits: the message, at the front of the output. The tag is computed first, and nothing is written before
// it holds.
pub fn open(
    key: &[u8],
    nonce: &[u8],
    tag_bits: u32,
    input: &[u8],
    out: &mut [u8],
) -> Result<usize, Refusal>
    ensures opened { outcome result out.new ≡ calls.opened tag_bits key.now nonce.now input.now out.old }
    ensures demand1 { Demand1 order.authenticated (among (calls.opening_rows tag_bits key.now nonce.now input.now out.old)) (calls.recovered tag_bits key.now nonce.now input.now) out.old (outcome result out.new) }
    ensures demand2 { Demand2 tag_bits key.now nonce.now input.now out.old (outcome result out.new) }
    ensures demand3 { Demand3 tag_bits key.now nonce.now input.now out.old (outcome result out.new) }
    ensures past { PastTag tag_bits key.now nonce.now input.now out.old (outcome result out.new) }
{
    let n = input.len();
    let size = tag::size(tag_bits);
    let too_long = MESSAGE_LIMIT + size < n;
    let too_short = n < size;
    let no_room = out.len() + size < n;
    mode_checks::judge_authenticated(key, nonce, tag_bits, too_long, too_short, no_room)?;
    let ciphertext = tagged::ciphertext_part(input, size);
    // No row applied: key and nonce have their sizes.
    let begun = beginning::begin(key.try_into().unwrap(), nonce.try_into().unwrap());
    let done = strings::decipher_all(begun, ciphertext);
    if tag::finish(done, tag_bits) != bits::number(tagged::tag_part(input, size)) {
        return Err(Refusal::TagDiffers);
    }
    strings::add_keystream(
        Edition::First,
        Taken::EverySecond,
        begun.registers,
        ciphertext,
        out,
    );
    Ok(n - size)
}

// Adds the keystream of the mode without authentication: to a message, or to what this call made of one, at the front of the output.
pub fn crypt(key: &[u8], nonce: &[u8], message: &[u8], out: &mut [u8]) -> Result<usize, Refusal>
    ensures crypted { outcome result out.new ≡ calls.crypted key.now nonce.now message.now out.old }
    ensures demand1 { Demand1 order.unauthenticated (among (calls.crypting_rows key.now nonce.now message.now out.old)) (with_keystream key.now nonce.now message.now) out.old (outcome result out.new) }
    ensures crypting { Crypting key.now nonce.now message.now out.old (outcome result out.new) }
{
    let n = message.len();
    let no_room = out.len() < n;
    mode_checks::judge_unauthenticated(key, nonce, MESSAGE_LIMIT < n, no_room)?;
    // No row applied: key and nonce have their sizes.
    let warmed = beginning::warm(key.try_into().unwrap(), nonce.try_into().unwrap());
    strings::add_keystream(Edition::First, Taken::Every, warmed, message, out);
    Ok(n)
}
