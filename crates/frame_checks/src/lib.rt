// The rows of making and of reading a frame, tried in their order.
#![tactic(auto, unfolding(crate::specs::Order::before_tag, crate::specs::Order::common, crate::specs::Order::making, crate::specs::Rows::common_rows, crate::specs::Rows::making_rows, crate::specs::Rows::reading_rows, refusals::specs::Refusals::among, refusals::specs::Refusals::check))]

pub mod layout;

ghost use Rattle.std.specs.Prelude.{◌≡◌, false, length};
ghost use Rattle.refusals.specs.Refusals.{among};
ghost use Rattle.refusals.specs.Refusals as refusals;
ghost use Rattle.frame_checks.specs.Order as order;
ghost use Rattle.frame_checks.specs.Rows.{common_rows, making_rows, reading_rows};

use refusals::Refusal;

// The first of the rows on key, nonce and identifier that applies.
pub fn judge_common(key: &[u8], nonce: &[u8], identifier: u32) -> Result<(), Refusal>
    ensures { result ≡ refusals.check order.common (among (common_rows key.now nonce.now identifier)) }
{
    refusals::first(&[
        (Refusal::KeySize, key.len() != 16),
        (Refusal::NonceSize, nonce.len() != 12),
        (Refusal::BlankKey, key::is_blank(key)),
        (Refusal::IdentifierTooLarge, identifier >= 0x2000_0000),
    ])
}

// The first row of making that applies, for an output of so many bytes.
pub fn judge_making(
    key: &[u8],
    nonce: &[u8],
    identifier: u32,
    message: &[u8],
    room: usize,
) -> Result<(), Refusal>
    ensures { result ≡ refusals.check order.making (among (making_rows key.now nonce.now identifier (length message.now) room)) }
{
    judge_common(key, nonce, identifier)?;
    refusals::first(&[
        (Refusal::FrameMessageTooLong, 55 < message.len()),
        (Refusal::OutputTooShort, room < layout::field_size(message)),
    ])
}

// The first row of reading before the tag's that applies, for an output of so many bytes.
pub fn judge_reading(
    key: &[u8],
    nonce: &[u8],
    identifier: u32,
    code: u32,
    field: &[u8],
    room: usize,
) -> Result<(), Refusal>
    ensures { result ≡ refusals.check order.before_tag (among (reading_rows key.now nonce.now identifier code field.now room false)) }
{
    judge_common(key, nonce, identifier)?;
    let not_coded = layout::not_coded(code, field);
    let wrong_length = layout::wrong_length(code, field);
    let not_zero = layout::filler_not_zero(field);
    let no_room = room < layout::announced(field) as usize;
    refusals::first(&[
        (Refusal::NotCodedLength, not_coded),
        (Refusal::WrongMessageLength, wrong_length),
        (Refusal::FillerNotZero, not_zero),
        (Refusal::OutputTooShort, no_room),
    ])
}
