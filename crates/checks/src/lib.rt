// The rows before the tag's of sealing and opening, tried in their order.
#![tactic(auto, unfolding(crate::specs::Order::before_tag, crate::specs::Rows::table, refusals::specs::Refusals::among, refusals::specs::Refusals::check))]

ghost use Rattle.std.specs.Prelude.{◌≡◌, false};
ghost use Rattle.refusals.specs.Refusals as refusals;
ghost use Rattle.checks.specs.Order.{before_tag};
ghost use Rattle.checks.specs.Rows.{rows};

use refusals::Refusal;

// The first of these rows that applies, where the AD has a limit. Whether refusals 4 to 6 apply is the caller's to say.
pub fn judge(
    key: &[u8],
    nonce: &[u8],
    ad: &[u8],
    limit: usize,
    too_long: bool,
    too_short: bool,
    no_room: bool,
) -> Result<(), Refusal>
    ensures { result ≡ refusals.check before_tag (rows limit key.now nonce.now ad.now too_long too_short no_room false) }
{
    refusals::first(&[
        (Refusal::KeySize, key.len() != 16),
        (Refusal::NonceSize, nonce.len() != 12),
        (Refusal::BlankKey, key::is_blank(key)),
        (Refusal::AdTooLong, limit < ad.len()),
        (Refusal::MessageTooLong, too_long),
        (Refusal::SealedTooShort, too_short),
        (Refusal::OutputTooShort, no_room),
    ])
}
