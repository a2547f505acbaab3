// Opening in the edition that a number names. A number that names none is refused before all else.
ghost use Rattle.std.specs.Prelude.{◌≡◌};
ghost use Rattle.refusals.specs.Outcome.{outcome};
ghost use Rattle.refusals.specs.Refusals.{among};
ghost use Rattle.startup.specs.Naming as naming;
ghost use Rattle.grain128aead.specs.Calls as calls;
ghost use Rattle.checks.specs.Demand1.{Demand1};
ghost use Rattle.grain128aead.specs.Demand2.{Demand2};
ghost use Rattle.grain128aead.specs.Demand3.{Demand3};
ghost use Rattle.grain128aead.specs.Substitution.{Substitution};
ghost use Rattle.named_edition.specs.Calls as named;

use grain128aead::by_edition;
use refusals::Refusal;
use startup::editions;

pub fn open(
    edition: u32,
    key: &[u8],
    nonce: &[u8],
    ad: &[u8],
    input: &[u8],
    out: &mut [u8],
) -> Result<usize, Refusal>
    ensures opened { outcome result out.new ≡ named.opened edition key.now nonce.now ad.now input.now out.old }
    ensures demand1 { Demand1 named.order (among (named.opening_rows edition key.now nonce.now ad.now input.now out.old)) (calls.recovered (naming.named edition) key.now nonce.now ad.now input.now) out.old (outcome result out.new) }
    ensures demand2 { named.InNamed edition (λ e. Demand2 e key.now nonce.now ad.now input.now out.old (outcome result out.new)) }
    ensures demand3 { named.InNamed edition (λ e. Demand3 e key.now nonce.now ad.now input.now out.old (outcome result out.new)) }
    ensures substitution { named.InNamed edition (λ e. Substitution e key.now nonce.now ad.now input.now out.old (outcome result out.new)) }
{
    let edition = editions::by_number(edition).ok_or(Refusal::UnknownEdition)?;
    by_edition::open(edition, key, nonce, ad, input, out)
}
