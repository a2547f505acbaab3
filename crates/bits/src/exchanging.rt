// Bits of a word that change places.
ghost use Rattle.std.specs.Prelude.{◌≡◌, ◌*◌, ◌^◌, ◌<◌};
ghost use Rattle.std.specs.Int.Bits.{bit_and};
ghost use Rattle.bits.specs.Exchange.{Rearranged, source};

// Exchanges the bits that the mask shows with those `by` places above them, which are in the word and are not shown.
pub fn exchange(x: u64, by: u32, mask: u64) -> u64
    requires { (by < 64) × (mask * 2 ^ by < 2 ^ 64) × (bit_and mask (mask * 2 ^ by) ≡ 0) }
    ensures { Rearranged (source mask by) x result }
{
    let t = (x ^ (x >> by)) & mask;
    x ^ t ^ (t << by)
}
