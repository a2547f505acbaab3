// Sealed CAN FD frames. Where no edition is named, it is the first.
#![tactic(auto)]

pub mod by_edition;

ghost use Rattle.std.specs.Prelude.{◌≡◌};
ghost use Rattle.refusals.specs.Outcome.{outcome};
ghost use Rattle.refusals.specs.Refusals.{among};
ghost use Rattle.checks.specs.Demand1.{Demand1};
ghost use Rattle.machine.specs.declared.edition.Edition.TheVariants.{First};
ghost use Rattle.frame_checks.specs.Order as order;
ghost use Rattle.frames.specs.Field as fields;
ghost use Rattle.frames.specs.Calls as calls;
ghost use Rattle.frames.specs.Demand2.{Making};
ghost use Rattle.frames.specs.Promises.{Reading};

use machine::edition::Edition;
use refusals::Refusal;

// The AD of a frame: the identifier, high byte first, then the length code.
pub fn frame_ad(identifier: u32, code: u32) -> [u8; 5]
    ensures { result ≡ fields.frame_ad identifier code }
{
    let [i0, i1, i2, i3] = identifier.to_be_bytes();
    [i0, i1, i2, i3, (code % 256) as u8]
}

// Makes a sealed data field from a message, at the front of the output: M, the ciphertext, the tag, zeros.
pub fn make(
    key: &[u8],
    nonce: &[u8],
    identifier: u32,
    message: &[u8],
    out: &mut [u8],
) -> Result<usize, Refusal>
    ensures made { outcome result out.new ≡ calls.made First key.now nonce.now identifier message.now out.old }
    ensures demand1 { Demand1 order.making (among (calls.making_rows key.now nonce.now identifier message.now out.old)) (fields.data_field First key.now nonce.now identifier message.now) out.old (outcome result out.new) }
    ensures demand2 { Making First key.now nonce.now identifier message.now out.old (outcome result out.new) }
{
    by_edition::make(Edition::First, key, nonce, identifier, message, out)
}

// Reads a sealed data field: the message, at the front of the output. Nothing is written before the tag holds.
pub fn read(
    key: &[u8],
    nonce: &[u8],
    identifier: u32,
    code: u32,
    field: &[u8],
    out: &mut [u8],
) -> Result<usize, Refusal>
    ensures read { outcome result out.new ≡ calls.read First key.now nonce.now identifier code field.now out.old }
    ensures demand1 { Demand1 order.reading (among (calls.reading_rows First key.now nonce.now identifier code field.now out.old)) (calls.recovered First key.now nonce.now identifier code field.now) out.old (outcome result out.new) }
    ensures promises { Reading First key.now nonce.now identifier code field.now out.old (outcome result out.new) }
{
    by_edition::read(Edition::First, key, nonce, identifier, code, field, out)
}
