// Grain v1.
ghost use Rattle.refusals.specs.Signed.{Returns};
ghost use Rattle.grainv1.specs.Calls as calls;

#[unsafe(no_mangle)]
pub extern "C" fn tikhoplav_grainv1_crypt(
    key: &[u8],
    nonce: &[u8],
    message: &[u8],
    out: &mut [u8],
) -> i64
    ensures { Returns (calls.crypted key.now nonce.now message.now out.old) result out.new }
{
    capi::grain_v1::tikhoplav_grainv1_crypt(key, nonce, message, out)
}
