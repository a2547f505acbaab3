// Words whose bytes have their bits turned round.
ghost use Rattle.bits.specs.Turned.{Turns};

use crate::exchanging::exchange;

// The word with the bits of each of its bytes turned round: neighbours, pairs and nibbles change places.
pub fn turn(w: u64) -> u64
    ensures { Turns w result }
{
    let neighbours = exchange(w, 1, 0x5555_5555_5555_5555);
    let pairs = exchange(neighbours, 2, 0x3333_3333_3333_3333);
    exchange(pairs, 4, 0x0f0f_0f0f_0f0f_0f0f)
}
