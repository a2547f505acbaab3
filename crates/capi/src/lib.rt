// The calls: plain numbers and byte slices. A success is a number from 0 on, refusal n is minus n.
#![tactic(auto)]

pub mod capturing;
pub mod codes;
pub mod framing;
pub mod grain_128a;
pub mod grain_v1;
pub mod signalling;
pub mod streaming;

ghost use Rattle.std.specs.Prelude.{◌≡◌, pos, length};
ghost use Rattle.refusals.specs.Signed.{Returns};
ghost use Rattle.payload.specs.Payload as payload;
ghost use Rattle.grain128aead.specs.FirstEdition as calls;
ghost use Rattle.named_edition.specs.Calls as named;

use named_edition::{opening, sealing};

pub fn tikhoplav_seal(key: &[u8], nonce: &[u8], ad: &[u8], message: &[u8], out: &mut [u8]) -> i64
    ensures { Returns (calls.sealed key.now nonce.now ad.now message.now out.old) result out.new }
{
    refusals::signed(grain128aead::seal(key, nonce, ad, message, out))
}

pub fn tikhoplav_open(key: &[u8], nonce: &[u8], ad: &[u8], sealed: &[u8], out: &mut [u8]) -> i64
    ensures { Returns (calls.opened key.now nonce.now ad.now sealed.now out.old) result out.new }
{
    refusals::signed(grain128aead::open(key, nonce, ad, sealed, out))
}

pub fn tikhoplav_seal_edition(
    edition: u32,
    key: &[u8],
    nonce: &[u8],
    ad: &[u8],
    message: &[u8],
    out: &mut [u8],
) -> i64
    ensures { Returns (named.sealed edition key.now nonce.now ad.now message.now out.old) result out.new }
{
    refusals::signed(sealing::seal(edition, key, nonce, ad, message, out))
}

pub fn tikhoplav_open_edition(
    edition: u32,
    key: &[u8],
    nonce: &[u8],
    ad: &[u8],
    sealed: &[u8],
    out: &mut [u8],
) -> i64
    ensures { Returns (named.opened edition key.now nonce.now ad.now sealed.now out.old) result out.new }
{
    refusals::signed(opening::open(edition, key, nonce, ad, sealed, out))
}

// The length of the ciphertext part. The tag part begins behind it, and runs to the end.
pub fn tikhoplav_ciphertext_size(sealed: &[u8]) -> i64
    ensures { result ≡ pos (length (payload.ciphertext_part sealed.now)) }
{
    let part = payload::parts::ciphertext_part(sealed);
    part.len() as i64
}
