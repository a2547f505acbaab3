// Payloads that arrive in pieces. Where begin names no edition, it is the first.
ghost use Rattle.std.specs.Prelude.{[]};
ghost use Rattle.stream_checks.specs.declared.counts.Kind.TheVariants.{Sealing, Checking};
ghost use Rattle.streams.specs.Calls.{Begin, Ad, Message, Ciphertext, FinishSealing, FinishChecking, called};
ghost use Rattle.streams.specs.Signed.{Returns};

use stream_checks::counts::Kind;

pub fn tikhoplav_sealing_begin(state: &mut [u8], key: &[u8], nonce: &[u8], announced: usize) -> i64
    ensures { Returns (called (Begin Sealing 1 key.now nonce.now announced) state.old) result state.new [] }
{
    refusals::signed(streams::begin(Kind::Sealing, 1, state, key, nonce, announced))
}

pub fn tikhoplav_sealing_begin_edition(
    edition: u32,
    state: &mut [u8],
    key: &[u8],
    nonce: &[u8],
    announced: usize,
) -> i64
    ensures { Returns (called (Begin Sealing edition key.now nonce.now announced) state.old) result state.new [] }
{
    refusals::signed(streams::begin(Kind::Sealing, edition, state, key, nonce, announced))
}

pub fn tikhoplav_sealing_ad(state: &mut [u8], piece: &[u8]) -> i64
    ensures { Returns (called (Ad Sealing piece.now) state.old) result state.new [] }
{
    refusals::signed(streams::ad(Kind::Sealing, state, piece))
}

pub fn tikhoplav_sealing_message(state: &mut [u8], piece: &[u8], out: &mut [u8]) -> i64
    ensures { Returns (called (Message piece.now out.old) state.old) result state.new out.new }
{
    refusals::signed(streams::message(state, piece, out))
}

pub fn tikhoplav_sealing_finish(state: &mut [u8], out: &mut [u8]) -> i64
    ensures { Returns (called (FinishSealing out.old) state.old) result state.new out.new }
{
    refusals::signed(streams::finish_sealing(state, out))
}

pub fn tikhoplav_checking_begin(state: &mut [u8], key: &[u8], nonce: &[u8], announced: usize) -> i64
    ensures { Returns (called (Begin Checking 1 key.now nonce.now announced) state.old) result state.new [] }
{
    refusals::signed(streams::begin(Kind::Checking, 1, state, key, nonce, announced))
}

pub fn tikhoplav_checking_begin_edition(
    edition: u32,
    state: &mut [u8],
    key: &[u8],
    nonce: &[u8],
    announced: usize,
) -> i64
    ensures { Returns (called (Begin Checking edition key.now nonce.now announced) state.old) result state.new [] }
{
    refusals::signed(streams::begin(Kind::Checking, edition, state, key, nonce, announced))
}

pub fn tikhoplav_checking_ad(state: &mut [u8], piece: &[u8]) -> i64
    ensures { Returns (called (Ad Checking piece.now) state.old) result state.new [] }
{
    refusals::signed(streams::ad(Kind::Checking, state, piece))
}

pub fn tikhoplav_checking_ciphertext(state: &mut [u8], piece: &[u8]) -> i64
    ensures { Returns (called (Ciphertext piece.now) state.old) result state.new [] }
{
    refusals::signed(streams::ciphertext(state, piece))
}

pub fn tikhoplav_checking_finish(state: &mut [u8], tag: &[u8]) -> i64
    ensures { Returns (called (FinishChecking tag.now) state.old) result state.new [] }
{
    refusals::signed(streams::finish_checking(state, tag))
}
