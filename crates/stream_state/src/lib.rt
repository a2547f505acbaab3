// The 64 bytes of a stream: how they are read and written, and the clocks so far.
#![tactic(auto)]

mod reading;
mod writing;

ghost use Rattle.std.specs.Prelude.{◌≡◌, cond, ◌<◌, ◌^◌, eqb, length};
ghost use Rattle.stream_checks.specs.Rows.{state_size};
ghost use Rattle.stream_state.specs.Stream.{stream_of, clocks_so_far};
ghost use Rattle.stream_state.specs.Layout.{written, held, held_of};

use machine::engine::Engine;
use startup::editions;
use stream_checks::counts::{self, Counts};

// A stream: the machine, which carries its edition, and what is counted.
#[derive(Clone, Copy)]
pub struct Session {
    pub engine: Engine,
    pub counts: Counts,
}

// The stream that a state holds, where a message has a limit.
#[tactic(auto, using(std::proofs::lemmas::Bool::Decides::nat_tests), unfolding(crate::specs::Layout::held, crate::specs::Layout::sound, crate::specs::Layout::read, crate::specs::Stream::stream_of))]
pub fn read(limit: usize, state: &[u8]) -> Option<Session>
    ensures { held_of result ≡ held limit state.now }
{
    let state = state.as_array::<64>()?;
    let edition = editions::by_number(state[56] as u32)?;
    let counts = reading::counts(state);
    if !counts::can_occur(limit, counts) || !reading::spare_is_zero(state) {
        return None;
    }
    let engine = reading::machine(edition, state);
    Some(Session { engine, counts })
}

// Writes a stream to a state of 64 bytes; a state of another size stays as it is.
pub fn write(x: Session, state: &mut [u8])
    ensures { state.new ≡ cond (eqb (length state.old) state_size) (written (stream_of x)) state.old }
{
    if let Some(state) = state.as_mut_array::<64>() {
        let g = x.engine.registers;
        let t = x.engine.tagger;
        let words = [
            g.lfsr0,
            g.lfsr1,
            g.nfsr0,
            g.nfsr1,
            t.accumulator,
            t.register,
            writing::counts_word(x.counts),
            writing::edition_word(x.engine.edition),
        ];
        writing::store(&words, state);
    }
}

// The clocks so far. They fit a signed number.
#[tactic(auto, using(crate::proofs::Few::coded_few, crate::proofs::Few::runs_early), unfolding(crate::specs::Stream::stream_of, crate::specs::Stream::bits_taken, crate::specs::Stream::clocks_so_far, machine::specs::Engine::state_of))]
pub fn clocks(x: Session) -> usize
    ensures counted { result ≡ clocks_so_far (stream_of x) }
    ensures small { result < 2 ^ 63 }
{
    let c = x.counts;
    let bytes = lengths::coded_size(c.announced as usize) + c.ad as usize + c.message as usize;
    editions::running_from(x.engine.edition) + 2 * (8 * bytes + c.phase as usize)
}
