// A stream read from its bytes, place by place.
ghost use Rattle.std.specs.Prelude.{◌≡◌, ◌+◌, ◌≤◌, length, drop};
ghost use Rattle.bits.specs.Bytes.{same};
ghost use Rattle.machine.specs.Engine.{state_of};
ghost use Rattle.stream_state.specs.Layout.{two_at, machine_at, counts_at, spare};

use authenticator::Tagger;
use machine::edition::Edition;
use machine::engine::Engine;
use preoutput::Registers;
use stream_checks::counts::Counts;

// Two bytes as a number.
fn two_at(state: &[u8], at: usize) -> u16
    requires { at + 2 ≤ length state.now }
    ensures { result ≡ two_at at state.now }
{
    u16::from_be_bytes([state[at], state[at + 1]])
}

// The machine of a state.
pub fn machine(edition: Edition, state: &[u8; 64]) -> Engine
    ensures { state_of result ≡ machine_at edition state.now }
{
    Engine {
        edition,
        registers: Registers {
            lfsr0: bits::number(&state[..8]),
            lfsr1: bits::number(&state[8..16]),
            nfsr0: bits::number(&state[16..24]),
            nfsr1: bits::number(&state[24..32]),
        },
        tagger: Tagger {
            accumulator: bits::number(&state[32..40]),
            register: bits::number(&state[40..48]),
        },
    }
}

// The counts of a state.
pub fn counts(state: &[u8; 64]) -> Counts
    ensures { result ≡ counts_at state.now }
{
    Counts {
        kind: state[48],
        phase: state[49],
        announced: two_at(state, 50),
        ad: two_at(state, 52),
        message: two_at(state, 54),
    }
}

// Whether the spare bytes are zero.
pub fn spare_is_zero(state: &[u8; 64]) -> bool
    ensures { result ≡ same (drop 57 state.now) spare }
{
    bits::number(&state[57..]) == 0
}
