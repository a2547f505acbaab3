// Start-up of both editions: the loading, the clocks that warm the registers up, and those that fill accumulator and register.
#![tactic(auto)]

pub mod editions;
pub mod feeding;
mod filling;
pub mod loading;

ghost use Rattle.std.specs.Prelude.{◌≡◌};
ghost use Rattle.machine.specs.Engine.{state_of};
ghost use Rattle.startup.specs.Editions.{initialised};

use authenticator::Tagger;
use machine::edition::Edition;
use machine::engine::Engine;

// The machine as start-up leaves it.
pub fn start(edition: Edition, key: &[u8; 16], nonce: &[u8; 12]) -> Engine
    ensures { state_of result ≡ initialised edition key.now nonce.now }
{
    // The loaded NFSR is the key.
    let loaded = loading::load(edition, key, nonce);
    let warmed = editions::warm(edition, loaded);
    let first = filling::fill(warmed, editions::filler(edition, loaded.nfsr0));
    let second = filling::fill(first.registers, editions::filler(edition, loaded.nfsr1));
    Engine {
        edition,
        registers: second.registers,
        tagger: Tagger {
            accumulator: first.outputs,
            register: second.outputs,
        },
    }
}
