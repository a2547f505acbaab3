// Reading a frame in the edition that a number names. A number that names none is refused before all else.
ghost use Rattle.std.specs.Prelude.{◌≡◌};
ghost use Rattle.refusals.specs.Outcome.{outcome};
ghost use Rattle.refusals.specs.Refusals.{among};
ghost use Rattle.startup.specs.Naming as naming;
ghost use Rattle.checks.specs.Demand1.{Demand1};
ghost use Rattle.named_edition.specs.Calls.{InNamed};
ghost use Rattle.frames.specs.Calls as calls;
ghost use Rattle.frames.specs.Promises.{Reading};
ghost use Rattle.named_frames.specs.Calls as named;

use frames::by_edition;
use refusals::Refusal;
use startup::editions;

pub fn read(
    edition: u32,
    key: &[u8],
    nonce: &[u8],
    identifier: u32,
    code: u32,
    field: &[u8],
    out: &mut [u8],
) -> Result<usize, Refusal>
    ensures read { outcome result out.new ≡ named.read edition key.now nonce.now identifier code field.now out.old }
    ensures demand1 { Demand1 named.reading (among (named.reading_rows edition key.now nonce.now identifier code field.now out.old)) (calls.recovered (naming.named edition) key.now nonce.now identifier code field.now) out.old (outcome result out.new) }
    ensures promises { InNamed edition (λ e. Reading e key.now nonce.now identifier code field.now out.old (outcome result out.new)) }
{
    let edition = editions::by_number(edition).ok_or(Refusal::UnknownEdition)?;
    by_edition::read(edition, key, nonce, identifier, code, field, out)
}
