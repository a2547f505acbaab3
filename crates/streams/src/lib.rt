// The calls on streams: payloads that arrive in pieces. A call reads the stream from the state, judges, goes on, and writes it back.
#![tactic(auto)]

mod going;

ghost use Rattle.std.specs.Prelude.{◌≡◌, []};
ghost use Rattle.refusals.specs.Signed.{capped};
ghost use Rattle.streams.specs.Calls as calls;
ghost use Rattle.streams.specs.Calls.{step, called};
ghost use Rattle.streams.specs.Demand1.{Demand1};

use crate::going::{get, put};
use grain128aead::sizes::AD_LIMIT;
use limits::MESSAGE_LIMIT;
use refusals::Refusal;
use startup::editions;
use stream_checks::counts::{self, Counts, Kind};
use stream_state::Session;

// Begins a stream in the edition that a number names.
pub fn begin(
    kind: Kind,
    edition: u32,
    state: &mut [u8],
    key: &[u8],
    nonce: &[u8],
    announced: usize,
) -> Result<usize, Refusal>
    ensures called { step result state.new [] ≡ called (calls.Begin kind edition key.now nonce.now announced) state.old }
    ensures demand1 { Demand1 (calls.Begin kind edition key.now nonce.now announced) state.old (step result state.new []) }
    ensures fits { capped result ≡ result }
{
    let edition = editions::by_number(edition);
    let unknown = edition.is_none();
    let size = state.len();
    stream_checks::judge_begin(unknown, key, nonce, announced, AD_LIMIT, size)?;
    // No row applied: the edition is known, key and nonce have their sizes.
    let engine = going::start(
        edition.unwrap(),
        key.try_into().unwrap(),
        nonce.try_into().unwrap(),
        announced,
    );
    let counts = Counts {
        kind: counts::number(kind),
        phase: 0,
        announced: announced as u16,
        ad: 0,
        message: 0,
    };
    put(Session { engine, counts }, state)
}

// Takes a piece of AD.
pub fn ad(kind: Kind, state: &mut [u8], piece: &[u8]) -> Result<usize, Refusal>
    ensures called { step result state.new [] ≡ called (calls.Ad kind piece.now) state.old }
    ensures demand1 { Demand1 (calls.Ad kind piece.now) state.old (step result state.new []) }
    ensures fits { capped result ≡ result }
{
    let x = get(state)?;
    let out_of_turn = counts::ad_out_of_turn(kind, x.counts, piece);
    stream_checks::judge(out_of_turn, false, false, false)?;
    let engine = strings::absorb_all(x.engine, piece);
    let counts = going::more_ad(x.counts, piece);
    put(Session { engine, counts }, state)
}

// Takes a piece of message; its ciphertext goes to the front of the output.
pub fn message(state: &mut [u8], piece: &[u8], out: &mut [u8]) -> Result<usize, Refusal>
    ensures called { step result state.new out.new ≡ called (calls.Message piece.now out.old) state.old }
    ensures demand1 { Demand1 (calls.Message piece.now out.old) state.old (step result state.new out.new) }
    ensures fits { capped result ≡ result }
{
    let x = get(state)?;
    let out_of_turn = counts::out_of_turn(Kind::Sealing, x.counts);
    let too_long = counts::too_long(MESSAGE_LIMIT, x.counts, piece);
    let no_room = out.len() < piece.len();
    stream_checks::judge(out_of_turn, too_long, false, no_room)?;
    let engine = strings::encipher_all(x.engine, piece, out);
    let counts = going::more_message(x.counts, piece);
    put(Session { engine, counts }, state)
}

// Takes a piece of ciphertext. The message that it hides is handed to the machine alone.
pub fn ciphertext(state: &mut [u8], piece: &[u8]) -> Result<usize, Refusal>
    ensures called { step result state.new [] ≡ called (calls.Ciphertext piece.now) state.old }
    ensures demand1 { Demand1 (calls.Ciphertext piece.now) state.old (step result state.new []) }
    ensures fits { capped result ≡ result }
{
    let x = get(state)?;
    let out_of_turn = counts::out_of_turn(Kind::Checking, x.counts);
    let too_long = counts::too_long(MESSAGE_LIMIT, x.counts, piece);
    stream_checks::judge(out_of_turn, too_long, false, false)?;
    let engine = strings::decipher_all(x.engine, piece);
    let counts = going::more_message(x.counts, piece);
    put(Session { engine, counts }, state)
}

// Ends a sealing stream: the tag goes to the front of the output.
pub fn finish_sealing(state: &mut [u8], out: &mut [u8]) -> Result<usize, Refusal>
    ensures called { step result state.new out.new ≡ called (calls.FinishSealing out.old) state.old }
    ensures demand1 { Demand1 (calls.FinishSealing out.old) state.old (step result state.new out.new) }
    ensures fits { capped result ≡ result }
{
    let x = get(state)?;
    let out_of_turn = counts::out_of_turn(Kind::Sealing, x.counts);
    let no_room = out.len() < 8;
    stream_checks::judge(out_of_turn, false, false, no_room)?;
    bits::spell(payload::tag::finish(x.engine), &mut out[..8]);
    put(going::ended(x), state)
}

// Ends a checking stream, if the tag is the computed one.
pub fn finish_checking(state: &mut [u8], tag: &[u8]) -> Result<usize, Refusal>
    ensures called { step result state.new [] ≡ called (calls.FinishChecking tag.now) state.old }
    ensures demand1 { Demand1 (calls.FinishChecking tag.now) state.old (step result state.new []) }
    ensures fits { capped result ≡ result }
{
    let x = get(state)?;
    let out_of_turn = counts::out_of_turn(Kind::Checking, x.counts);
    let wrong_size = tag.len() != 8;
    stream_checks::judge(out_of_turn, false, wrong_size, false)?;
    if payload::tag::finish(x.engine) != bits::number(tag) {
        return Err(Refusal::TagDiffers);
    }
    put(going::ended(x), state)
}
