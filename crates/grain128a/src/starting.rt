// Start-up: the clocks that warm the loaded registers up, and those that fill accumulator and register.
ghost use Rattle.std.specs.Prelude.{◌≡◌};
ghost use Rattle.bits.specs.Times.{times};
ghost use Rattle.generators.specs.Generator.{fed_back};
ghost use Rattle.preoutput.specs.Functions.{grain128};
ghost use Rattle.preoutput.specs.Words.{generator_of};
ghost use Rattle.machine.specs.Engine.{state_of};
ghost use Rattle.machine.specs.Laws as machine;
ghost use Rattle.grain128a.specs.StartUp.{filled};

use authenticator::Tagger;
use machine::edition::Edition;
use machine::engine::Engine;
use preoutput::Registers;
use startup::feeding;
use strokes::streams;

// From the loaded registers to those whose clocks give pre-output 0, 1 and so on.
pub fn warm(loaded: Registers) -> Registers
    ensures { generator_of result ≡ times 256 (fed_back grain128) (generator_of «loaded») }
{
    feeding::feed_back(loaded, 256)
}

// From there to the machine where the message begins. Accumulator and register are the lowest 32 bits of their words; those above are not used.
pub fn fill(warmed: Registers) -> Engine
    ensures { machine.cut 32 (state_of result) ≡ filled (generator_of warmed) }
{
    let accumulator = streams::preoutput_word(warmed);
    let register = streams::preoutput_word(accumulator.registers);
    Engine {
        edition: Edition::First,
        registers: register.registers,
        tagger: Tagger {
            accumulator: accumulator.keystream,
            register: register.keystream,
        },
    }
}
