// The calls for C: each exported function hands its arguments to the call of its name in capi, and answers what that answers.
#![tactic(auto)]

pub mod capturing;
pub mod codes;
pub mod framing;
pub mod grain_128a;
pub mod grain_v1;
pub mod signalling;
pub mod streaming;

ghost use Rattle.std.specs.Prelude.{◌≡◌, pos, length};
ghost use Rattle.refusals.specs.Signed.{Returns};
ghost use Rattle.payload.specs.Payload as payload;
ghost use Rattle.grain128aead.specs.FirstEdition as calls;
ghost use Rattle.named_edition.specs.Calls as named;

#[unsafe(no_mangle)]
pub extern "C" fn tikhoplav_seal(
    key: &[u8],
    nonce: &[u8],
    ad: &[u8],
    message: &[u8],
    out: &mut [u8],
) -> i64
    ensures { Returns (calls.sealed key.now nonce.now ad.now message.now out.old) result out.new }
{
    capi::tikhoplav_seal(key, nonce, ad, message, out)
}

#[unsafe(no_mangle)]
pub extern "C" fn tikhoplav_open(
    key: &[u8],
    nonce: &[u8],
    ad: &[u8],
    sealed: &[u8],
    out: &mut [u8],
) -> i64
    ensures { Returns (calls.opened key.now nonce.now ad.now sealed.now out.old) result out.new }
{
    capi::tikhoplav_open(key, nonce, ad, sealed, out)
}

#[unsafe(no_mangle)]
pub extern "C" fn tikhoplav_seal_edition(
    edition: u32,
    key: &[u8],
    nonce: &[u8],
    ad: &[u8],
    message: &[u8],
    out: &mut [u8],
) -> i64
    ensures { Returns (named.sealed edition key.now nonce.now ad.now message.now out.old) result out.new }
{
    capi::tikhoplav_seal_edition(edition, key, nonce, ad, message, out)
}

#[unsafe(no_mangle)]
pub extern "C" fn tikhoplav_open_edition(
    edition: u32,
    key: &[u8],
    nonce: &[u8],
    ad: &[u8],
    sealed: &[u8],
    out: &mut [u8],
) -> i64
    ensures { Returns (named.opened edition key.now nonce.now ad.now sealed.now out.old) result out.new }
{
    capi::tikhoplav_open_edition(edition, key, nonce, ad, sealed, out)
}

// The length of the ciphertext part. The tag part begins behind it, and runs to the end.
#[unsafe(no_mangle)]
pub extern "C" fn tikhoplav_ciphertext_size(sealed: &[u8]) -> i64
    ensures { result ≡ pos (length (payload.ciphertext_part sealed.now)) }
{
    capi::tikhoplav_ciphertext_size(sealed)
}
