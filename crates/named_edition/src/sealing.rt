// Sealing in the edition that a number names. A number that names none is refused before all else.
ghost use Rattle.std.specs.Prelude.{◌≡◌};
ghost use Rattle.refusals.specs.Outcome.{outcome};
ghost use Rattle.refusals.specs.Refusals.{among};
ghost use Rattle.startup.specs.Naming as naming;
ghost use Rattle.payload.specs.Payload.{payload};
ghost use Rattle.checks.specs.Demand1.{Demand1};
ghost use Rattle.grain128aead.specs.Demand2.{Sealing};
ghost use Rattle.named_edition.specs.Calls as named;

use grain128aead::by_edition;
use refusals::Refusal;
use startup::editions;

pub fn seal(
    edition: u32,
    key: &[u8],
    nonce: &[u8],
    ad: &[u8],
    message: &[u8],
    out: &mut [u8],
) -> Result<usize, Refusal>
    ensures sealed { outcome result out.new ≡ named.sealed edition key.now nonce.now ad.now message.now out.old }
    ensures demand1 { Demand1 named.order (among (named.sealing_rows edition key.now nonce.now ad.now message.now out.old)) (payload (naming.named edition) key.now nonce.now ad.now message.now) out.old (outcome result out.new) }
    ensures demand2 { named.InNamed edition (λ e. Sealing e key.now nonce.now ad.now message.now out.old (outcome result out.new)) }
{
    let edition = editions::by_number(edition).ok_or(Refusal::UnknownEdition)?;
    by_edition::seal(edition, key, nonce, ad, message, out)
}
