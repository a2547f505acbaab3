// Grain v1: a message with the keystream added. There is no tag.
#![tactic(auto)]

mod adding;
pub mod keystream;
pub mod registers;
pub mod starting;
mod stroke;
mod windows;

ghost use Rattle.std.specs.Prelude.{◌≡◌};
ghost use Rattle.refusals.specs.Refusals as refusals;
ghost use Rattle.refusals.specs.Refusals.{among};
ghost use Rattle.refusals.specs.Outcome.{outcome};
ghost use Rattle.checks.specs.Demand1.{Demand1};
ghost use Rattle.grainv1.specs.StartUp.{initialised, with_keystream};
ghost use Rattle.grainv1.specs.Words.{generator_of};
ghost use Rattle.grainv1.specs.Rows.{order, rows};
ghost use Rattle.grainv1.specs.Calls.{crypted, Crypting};

use crate::registers::Registers;
use limits::MESSAGE_LIMIT;
use refusals::Refusal;

// The first row that applies.
#[tactic(auto, unfolding(crate::specs::Rows::order, crate::specs::Rows::rows, limits::specs::Limits::message_limit, refusals::specs::Refusals::among, refusals::specs::Refusals::check))]
fn judge(key: &[u8], nonce: &[u8], message: &[u8], out: &[u8]) -> Result<(), Refusal>
    ensures { result ≡ refusals.check order (among (rows key.now nonce.now message.now out.now)) }
{
    refusals::first(&[
        (Refusal::KeySize, key.len() != 10),
        (Refusal::NonceSize, nonce.len() != 8),
        (Refusal::MessageTooLong, MESSAGE_LIMIT < message.len()),
        (Refusal::OutputTooShort, out.len() < message.len()),
    ])
}

// The registers after start-up, from the bytes of key and nonce.
fn begin(key: &[u8; 10], nonce: &[u8; 8]) -> Registers
    ensures { generator_of result ≡ initialised key.now nonce.now }
{
    starting::start(
        bits::number(&key[..8]),
        bits::number(&key[8..]),
        bits::number(nonce),
    )
}

// Adds the keystream: to a message, or to what this call made of one, at the front of the output.
pub fn crypt(key: &[u8], nonce: &[u8], message: &[u8], out: &mut [u8]) -> Result<usize, Refusal>
    ensures crypted { outcome result out.new ≡ crypted key.now nonce.now message.now out.old }
    ensures demand1 { Demand1 order (among (rows key.now nonce.now message.now out.old)) (with_keystream key.now nonce.now message.now) out.old (outcome result out.new) }
    ensures crypting { Crypting key.now nonce.now message.now out.old (outcome result out.new) }
{
    judge(key, nonce, message, out)?;
    // No row applied: key and nonce have their sizes.
    let begun = begin(key.try_into().unwrap(), nonce.try_into().unwrap());
    adding::add(begun, message, out);
    Ok(message.len())
}
