// Grain-128a, with a tag and without.
ghost use Rattle.refusals.specs.Signed.{Returns};
ghost use Rattle.grain128a.specs.Calls as calls;

#[unsafe(no_mangle)]
pub extern "C" fn tikhoplav_grain128a_seal(
    key: &[u8],
    nonce: &[u8],
    tag_bits: u32,
    message: &[u8],
    out: &mut [u8],
) -> i64
    ensures { Returns (calls.sealed tag_bits key.now nonce.now message.now out.old) result out.new }
{
    capi::grain_128a::tikhoplav_grain128a_seal(key, nonce, tag_bits, message, out)
}

#[unsafe(no_mangle)]
pub extern "C" fn tikhoplav_grain128a_open(
    key: &[u8],
    nonce: &[u8],
    tag_bits: u32,
    sealed: &[u8],
    out: &mut [u8],
) -> i64
    ensures { Returns (calls.opened tag_bits key.now nonce.now sealed.now out.old) result out.new }
{
    capi::grain_128a::tikhoplav_grain128a_open(key, nonce, tag_bits, sealed, out)
}

#[unsafe(no_mangle)]
pub extern "C" fn tikhoplav_grain128a_crypt(
    key: &[u8],
    nonce: &[u8],
    message: &[u8],
    out: &mut [u8],
) -> i64
    ensures { Returns (calls.crypted key.now nonce.now message.now out.old) result out.new }
{
    capi::grain_128a::tikhoplav_grain128a_crypt(key, nonce, message, out)
}
