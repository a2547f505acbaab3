// How a stream goes on.
ghost use Rattle.std.specs.Prelude.{◌≡◌, cond, false, ◌+◌, ◌<◌, eqb, length, MatchResult, Ok};
ghost use Rattle.refusals.specs.Signed.{capped};
ghost use Rattle.refusals.specs.declared.Refusal.TheVariants.{UnsoundState};
ghost use Rattle.limits.specs.Limits.{message_limit};
ghost use Rattle.machine.specs.Machine.{run};
ghost use Rattle.machine.specs.Engine.{state_of};
ghost use Rattle.startup.specs.Editions.{bits_in, initialised};
ghost use Rattle.lengths.specs.CodedLength.{coded_length};
ghost use Rattle.stream_checks.specs.Rows.{state_size};
ghost use Rattle.stream_state.specs.Stream.{stream_of, clocks_so_far};
ghost use Rattle.stream_state.specs.Layout.{written, sound};
ghost use Rattle.streams.specs.Going as going;
ghost use Rattle.streams.specs.Going.{Holds};

use limits::MESSAGE_LIMIT;
use machine::edition::Edition;
use machine::engine::{self, Engine};
use refusals::Refusal;
use stream_checks::counts::Counts;
use stream_state::Session;

// The machine after start-up and the coded length of the AD.
pub fn start(edition: Edition, key: &[u8; 16], nonce: &[u8; 12], announced: usize) -> Engine
    ensures { state_of result ≡ run (initialised edition key.now nonce.now) (bits_in edition (coded_length announced)) }
{
    payload::header::absorb_length(startup::start(edition, key, nonce), announced)
}

// The counts after a piece of AD.
pub fn more_ad(c: Counts, piece: &[u8]) -> Counts
    requires { c.ad + length piece.now < 65536 }
    ensures { result ≡ going.more_ad c (length piece.now) }
{
    Counts {
        ad: c.ad + piece.len() as u16,
        ..c
    }
}

// The counts after a piece of message.
pub fn more_message(c: Counts, piece: &[u8]) -> Counts
    requires { c.message + length piece.now < 65536 }
    ensures { result ≡ going.more_message c (length piece.now) }
{
    Counts {
        message: c.message + piece.len() as u16,
        ..c
    }
}

// The stream after the final 1.
#[tactic(auto, unfolding(stream_state::specs::Stream::stream_of))]
pub fn ended(x: Session) -> Session
    ensures { stream_of result ≡ going.finished (stream_of x) }
{
    let engine = engine::absorb_bit(x.engine, 1);
    let counts = Counts {
        phase: 1,
        ..x.counts
    };
    Session { engine, counts }
}

// The stream that a state holds.
pub fn get(state: &[u8]) -> Result<Session, Refusal>
    ensures { MatchResult result (λ x. Holds state.now x) (λ r. (r ≡ UnsoundState) × (sound message_limit state.now ≡ false)) }
{
    stream_state::read(MESSAGE_LIMIT, state).ok_or(Refusal::UnsoundState)
}

// Writes the stream, and answers its clocks.
pub fn put(x: Session, state: &mut [u8]) -> Result<usize, Refusal>
    ensures counted { result ≡ Ok (clocks_so_far (stream_of x)) }
    ensures stored { state.new ≡ cond (eqb (length state.old) state_size) (written (stream_of x)) state.old }
    ensures fits { capped result ≡ result }
{
    stream_state::write(x, state);
    Ok(stream_state::clocks(x))
}
