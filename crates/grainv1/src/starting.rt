// Start-up: key and nonce are loaded, and 160 clocks feed the output back.
ghost use Rattle.std.specs.Prelude.{◌≡◌};
ghost use Rattle.bits.specs.Bytes.{word};
ghost use Rattle.grainv1.specs.StartUp.{started};
ghost use Rattle.grainv1.specs.Words.{register, generator_of};

use crate::registers::Registers;
use crate::stroke;

// The registers after start-up. Of `key1` the lowest sixteen bits are the key's last.
pub fn start(key0: u64, key1: u64, nonce: u64) -> Registers
    ensures { generator_of result ≡ started (register key0 key1) (word 64 nonce) }
{
    let mut now = Registers {
        lfsr0: nonce,
        lfsr1: 0xffff,
        nfsr0: key0,
        nfsr1: key1,
    };
    for _ in 0..10u8 {
        now = stroke::fed_back(now);
    }
    now
}
