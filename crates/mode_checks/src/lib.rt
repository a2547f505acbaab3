// The rows before the tag's of Grain-128a's calls, tried in their order.
#![tactic(auto, unfolding(crate::specs::Order::before_tag, crate::specs::Order::common, crate::specs::Order::unauthenticated, crate::specs::Rows::authenticated_rows, crate::specs::Rows::common_rows, crate::specs::Rows::unauthenticated_rows, refusals::specs::Refusals::among, refusals::specs::Refusals::check))]

ghost use Rattle.std.specs.Prelude.{◌≡◌, false};
ghost use Rattle.refusals.specs.Refusals.{among};
ghost use Rattle.refusals.specs.Refusals as refusals;
ghost use Rattle.mode_checks.specs.Modes.{mode_bit};
ghost use Rattle.mode_checks.specs.Order as order;
ghost use Rattle.mode_checks.specs.Rows.{common_rows, authenticated_rows, unauthenticated_rows};

use refusals::Refusal;

// Nonce bit 0.
fn mode_bit(nonce: &[u8]) -> bool
    ensures { result ≡ mode_bit nonce.now }
{
    nonce.first().is_some_and(|byte| *byte >> 7 == 1)
}

// The first of the rows on key and nonce that applies, in the mode with authentication or in the one without.
fn judge_common(key: &[u8], nonce: &[u8], mode: bool) -> Result<(), Refusal>
    ensures { result ≡ refusals.check order.common (among (common_rows key.now nonce.now «mode»)) }
{
    refusals::first(&[
        (Refusal::KeySize, key.len() != 16),
        (Refusal::NonceSize, nonce.len() != 12),
        (Refusal::BlankKey, key::is_blank(key)),
        (Refusal::NonceMode, mode ^ mode_bit(nonce)),
    ])
}

// The first row before the tag's that applies, with a tag of so many bits. Whether refusals 4 to 6 apply is the caller's to say.
pub fn judge_authenticated(
    key: &[u8],
    nonce: &[u8],
    tag_bits: u32,
    too_long: bool,
    too_short: bool,
    no_room: bool,
) -> Result<(), Refusal>
    ensures { result ≡ refusals.check order.before_tag (among (authenticated_rows key.now nonce.now tag_bits too_long too_short no_room false)) }
{
    judge_common(key, nonce, true)?;
    refusals::first(&[
        (Refusal::TagLength, !(1..=32).contains(&tag_bits)),
        (Refusal::MessageTooLong, too_long),
        (Refusal::SealedTooShort, too_short),
        (Refusal::OutputTooShort, no_room),
    ])
}

// The first row that applies without a tag.
pub fn judge_unauthenticated(
    key: &[u8],
    nonce: &[u8],
    too_long: bool,
    no_room: bool,
) -> Result<(), Refusal>
    ensures { result ≡ refusals.check order.unauthenticated (among (unauthenticated_rows key.now nonce.now too_long no_room)) }
{
    judge_common(key, nonce, false)?;
    refusals::first(&[
        (Refusal::MessageTooLong, too_long),
        (Refusal::OutputTooShort, no_room),
    ])
}
