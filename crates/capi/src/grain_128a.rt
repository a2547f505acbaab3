// Grain-128a, with a tag and without.
ghost use Rattle.refusals.specs.Signed.{Returns};
ghost use Rattle.grain128a.specs.Calls as calls;

pub fn tikhoplav_grain128a_seal(
    key: &[u8],
    nonce: &[u8],
    tag_bits: u32,
    message: &[u8],
    out: &mut [u8],
) -> i64
    ensures { Returns (calls.sealed tag_bits key.now nonce.now message.now out.old) result out.new }
{
    refusals::signed(grain128a::seal(key, nonce, tag_bits, message, out))
}

pub fn tikhoplav_grain128a_open(
    key: &[u8],
    nonce: &[u8],
    tag_bits: u32,
    sealed: &[u8],
    out: &mut [u8],
) -> i64
    ensures { Returns (calls.opened tag_bits key.now nonce.now sealed.now out.old) result out.new }
{
    refusals::signed(grain128a::open(key, nonce, tag_bits, sealed, out))
}

pub fn tikhoplav_grain128a_crypt(key: &[u8], nonce: &[u8], message: &[u8], out: &mut [u8]) -> i64
    ensures { Returns (calls.crypted key.now nonce.now message.now out.old) result out.new }
{
    refusals::signed(grain128a::crypt(key, nonce, message, out))
}
