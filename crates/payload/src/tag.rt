// The tag.
ghost use Rattle.std.specs.Prelude.{◌≡◌, true, ◌∷◌, []};
ghost use Rattle.bits.specs.Bytes.{word, bytes};
ghost use Rattle.machine.specs.Machine.{run};
ghost use Rattle.machine.specs.Engine.{state_of};
ghost use Rattle.startup.specs.Editions.{bytes_in};
ghost use Rattle.payload.specs.Sizes.{tag_size};

use machine::engine::{self, Engine};
use startup::editions;

// The word whose bytes are the tag, from the machine before the final 1.
pub fn finish(e: Engine) -> u64
    ensures { bytes tag_size (word 64 result) ≡ bytes_in e.edition tag_size (run (state_of e) (true ∷ [])).authenticator.accumulator }
{
    editions::ordered(e.edition, engine::finish(e))
}
