// The kinds and the counts of a stream, and the rows of its calls, tried in their order.
#![tactic(auto, unfolding(crate::specs::Order::beginning, crate::specs::Order::before_tag, crate::specs::Rows::begin_rows, crate::specs::Rows::rows, refusals::specs::Refusals::among, refusals::specs::Refusals::check))]

pub mod counts;

ghost use Rattle.std.specs.Prelude.{◌≡◌, false};
ghost use Rattle.refusals.specs.Refusals.{among};
ghost use Rattle.refusals.specs.Refusals as refusals;
ghost use Rattle.stream_checks.specs.Order as order;
ghost use Rattle.stream_checks.specs.Rows.{begin_rows, rows};

use refusals::Refusal;

// The first row of begin that applies, for an AD of a length that has a limit and a state of so many bytes. Whether the edition is unknown is the
// caller's to say.
pub fn judge_begin(
    unknown: bool,
    key: &[u8],
    nonce: &[u8],
    announced: usize,
    limit: usize,
    size: usize,
) -> Result<(), Refusal>
    ensures { result ≡ refusals.check order.beginning (among (begin_rows unknown key.now nonce.now announced limit size)) }
{
    refusals::first(&[
        (Refusal::UnknownEdition, unknown),
        (Refusal::KeySize, key.len() != 16),
        (Refusal::NonceSize, nonce.len() != 12),
        (Refusal::BlankKey, key::is_blank(key)),
        (Refusal::AdTooLong, limit < announced),
        (Refusal::UnsoundState, size != 64),
    ])
}

// The first of the rows before the tag's that applies, of a call on a sound state.
pub fn judge(
    out_of_turn: bool,
    too_long: bool,
    wrong_size: bool,
    no_room: bool,
) -> Result<(), Refusal>
    ensures { result ≡ refusals.check order.before_tag (among (rows false out_of_turn too_long wrong_size no_room false)) }
{
    refusals::first(&[
        (Refusal::OutOfTurn, out_of_turn),
        (Refusal::MessageTooLong, too_long),
        (Refusal::SealedTooShort, wrong_size),
        (Refusal::OutputTooShort, no_room),
    ])
}
