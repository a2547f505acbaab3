// Making and reading a frame in an edition.
ghost use Rattle.std.specs.Prelude.{◌≡◌};
ghost use Rattle.refusals.specs.Outcome.{outcome};
ghost use Rattle.refusals.specs.Refusals.{among};
ghost use Rattle.checks.specs.Demand1.{Demand1};
ghost use Rattle.frame_checks.specs.Order as order;
ghost use Rattle.frames.specs.Field.{data_field};
ghost use Rattle.frames.specs.Calls as calls;
ghost use Rattle.frames.specs.Demand2.{Making};
ghost use Rattle.frames.specs.Promises.{Reading};

use frame_checks::layout;
use grain128aead::by_edition;
use machine::edition::Edition;
use refusals::Refusal;

// Makes a sealed data field from a message, at the front of the output: M, the ciphertext, the tag, zeros.
pub fn make(
    edition: Edition,
    key: &[u8],
    nonce: &[u8],
    identifier: u32,
    message: &[u8],
    out: &mut [u8],
) -> Result<usize, Refusal>
    ensures made { outcome result out.new ≡ calls.made edition key.now nonce.now identifier message.now out.old }
    ensures demand1 { Demand1 order.making (among (calls.making_rows key.now nonce.now identifier message.now out.old)) (data_field edition key.now nonce.now identifier message.now) out.old (outcome result out.new) }
    ensures demand2 { Making edition key.now nonce.now identifier message.now out.old (outcome result out.new) }
{
    let room = out.len();
    frame_checks::judge_making(key, nonce, identifier, message, room)?;
    let size = layout::field_size(message);
    let ad = crate::frame_ad(identifier, layout::field_code(message));
    let m = message.len();
    let end = m + 9;
    out[0] = m as u8;
    // It can't fail: the rows of making leave nothing that sealing refuses, and the part is just as long as the payload.
    by_edition::seal(edition, key, nonce, &ad, message, &mut out[1..end]).unwrap();
    bits::spell(0, &mut out[end..size]);
    Ok(size)
}

// Reads a sealed data field: the message, at the front of the output. Nothing is written before the tag holds.
pub fn read(
    edition: Edition,
    key: &[u8],
    nonce: &[u8],
    identifier: u32,
    code: u32,
    field: &[u8],
    out: &mut [u8],
) -> Result<usize, Refusal>
    ensures read { outcome result out.new ≡ calls.read edition key.now nonce.now identifier code field.now out.old }
    ensures demand1 { Demand1 order.reading (among (calls.reading_rows edition key.now nonce.now identifier code field.now out.old)) (calls.recovered edition key.now nonce.now identifier code field.now) out.old (outcome result out.new) }
    ensures promises { Reading edition key.now nonce.now identifier code field.now out.old (outcome result out.new) }
{
    let room = out.len();
    frame_checks::judge_reading(key, nonce, identifier, code, field, room)?;
    let ad = crate::frame_ad(identifier, code);
    let end = layout::announced(field) as usize + 9;
    by_edition::open(edition, key, nonce, &ad, &field[1..end], out)
}
