// The tag: the last bits of the accumulator, in whole bytes.
ghost use Rattle.std.specs.Prelude.{◌≡◌, true, ◌∷◌, [], ◌≤◌};
ghost use Rattle.machine.specs.Machine.{run};
ghost use Rattle.machine.specs.Engine.{state_of};
ghost use Rattle.mode_checks.specs.Modes.{tag_limit};
ghost use Rattle.grain128a.specs.Payload.{tag_size};
ghost use Rattle.grain128a.specs.TagNumber.{TagNumber};

use machine::engine::{self, Engine};

// The bytes that a tag of so many bits takes.
pub fn size(tag_bits: u32) -> usize
    ensures { result ≡ tag_size tag_bits }
{
    (tag_bits as usize).div_ceil(8)
}

// The tag, from the machine before the final 1: the lowest bits of the accumulator's word, and zeros up to whole bytes.
pub fn finish(e: Engine, tag_bits: u32) -> u64
    requires { tag_bits ≤ tag_limit }
    ensures { TagNumber tag_bits (run (state_of e) (true ∷ [])).authenticator.accumulator result }
{
    let width = tag_bits as usize;
    let pad = size(tag_bits) * 8 - width;
    (engine::finish(e) % (1 << width)) << pad
}
