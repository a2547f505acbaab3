// Making a frame in the edition that a number names. A number that names none is refused before all else.
ghost use Rattle.std.specs.Prelude.{◌≡◌};
ghost use Rattle.refusals.specs.Outcome.{outcome};
ghost use Rattle.refusals.specs.Refusals.{among};
ghost use Rattle.startup.specs.Naming as naming;
ghost use Rattle.checks.specs.Demand1.{Demand1};
ghost use Rattle.named_edition.specs.Calls.{InNamed};
ghost use Rattle.frames.specs.Field.{data_field};
ghost use Rattle.frames.specs.Demand2.{Making};
ghost use Rattle.named_frames.specs.Calls as named;

use frames::by_edition;
use refusals::Refusal;
use startup::editions;

pub fn make(
    edition: u32,
    key: &[u8],
    nonce: &[u8],
    identifier: u32,
    message: &[u8],
    out: &mut [u8],
) -> Result<usize, Refusal>
    ensures made { outcome result out.new ≡ named.made edition key.now nonce.now identifier message.now out.old }
    ensures demand1 { Demand1 named.making (among (named.making_rows edition key.now nonce.now identifier message.now out.old)) (data_field (naming.named edition) key.now nonce.now identifier message.now) out.old (outcome result out.new) }
    ensures demand2 { InNamed edition (λ e. Making e key.now nonce.now identifier message.now out.old (outcome result out.new)) }
{
    let edition = editions::by_number(edition).ok_or(Refusal::UnknownEdition)?;
    by_edition::make(edition, key, nonce, identifier, message, out)
}
