// The machine from key and nonce.
ghost use Rattle.std.specs.Prelude.{◌≡◌};
ghost use Rattle.preoutput.specs.Words.{generator_of};
ghost use Rattle.machine.specs.Engine.{state_of};
ghost use Rattle.machine.specs.Laws as machine;
ghost use Rattle.grain128a.specs.StartUp.{warmed, initialised};

use crate::starting;
use machine::edition::Edition;
use machine::engine::Engine;
use preoutput::Registers;
use startup::loading;

// The registers whose clocks give pre-output 0, 1 and so on.
pub fn warm(key: &[u8; 16], nonce: &[u8; 12]) -> Registers
    ensures { generator_of result ≡ warmed key.now nonce.now }
{
    starting::warm(loading::load(Edition::First, key, nonce))
}

// The machine where the message begins.
pub fn begin(key: &[u8; 16], nonce: &[u8; 12]) -> Engine
    ensures { machine.cut 32 (state_of result) ≡ initialised key.now nonce.now }
{
    starting::fill(warm(key, nonce))
}
