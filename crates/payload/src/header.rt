// The machine over what stands before the message: the coded length of the AD, and the AD.
ghost use Rattle.std.specs.Prelude.{◌≡◌};
ghost use Rattle.machine.specs.Machine.{run};
ghost use Rattle.machine.specs.Engine.{state_of};
ghost use Rattle.startup.specs.Editions.{bits_in};
ghost use Rattle.lengths.specs.CodedLength.{coded_length};
ghost use Rattle.payload.specs.Payload.{begun};

use machine::edition::Edition;
use machine::engine::Engine;

// The coded length of the AD. Of a length of more than two bytes, the last two are coded.
pub fn absorb_length(e: Engine, n: usize) -> Engine
    ensures { state_of result ≡ run (state_of e) (bits_in e.edition (coded_length n)) }
{
    if n <= 127 {
        return strings::absorb_byte(e, n as u8);
    }
    if n <= 255 {
        return strings::absorb_byte(strings::absorb_byte(e, 0x81), n as u8);
    }
    let marked = strings::absorb_byte(e, 0x82);
    let high = strings::absorb_byte(marked, (n / 256 % 256) as u8);
    strings::absorb_byte(high, (n % 256) as u8)
}

// The machine where the message begins.
pub fn begin(edition: Edition, key: &[u8; 16], nonce: &[u8; 12], ad: &[u8]) -> Engine
    ensures { state_of result ≡ begun edition key.now nonce.now ad.now }
{
    let started = startup::start(edition, key, nonce);
    strings::absorb_all(absorb_length(started, ad.len()), ad)
}
