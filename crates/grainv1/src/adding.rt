// A message with the keystream added.
ghost use Rattle.std.specs.Prelude.{◌≡◌, ◌++◌, ◌*◌, ◌≤◌, ◌<◌, length, take, drop};
ghost use Rattle.bits.specs.Bytes.{word, flip};
ghost use Rattle.generators.specs.Keystream.{added};
ghost use Rattle.grainv1.specs.Functions.{grainv1};
ghost use Rattle.grainv1.specs.Words.{generator_of};

use crate::keystream;
use crate::registers::Registers;

// One to eight bytes with the first places of a word added, one to each bit.
fn add_places(places: u64, s: &[u8], out: &mut [u8])
    requires { (0 < length s.now) × (length s.now ≤ 8) × (length out.old ≡ length s.now) }
    ensures { out.new ≡ flip s.now (take (8 * length s.now) (word 64 places)) }
{
    let above = 64 - 8 * s.len();
    bits::spell(bits::number(s) ^ (places >> above), out);
}

// At the front of an output that has room for the message: eight bytes at a time, and those that are left.
pub fn add(g: Registers, s: &[u8], out: &mut [u8])
    requires { length s.now ≤ length out.old }
    ensures { out.new ≡ added grainv1 flip 1 (generator_of g) s.now ++ drop (length s.now) out.old }
{
    let mut now = g;
    for (i, piece) in s.chunks(8).enumerate() {
        let at = 8 * i;
        let end = at + piece.len();
        let k = keystream::word(now);
        add_places(k.outputs, piece, &mut out[at..end]);
        now = k.registers;
    }
}
