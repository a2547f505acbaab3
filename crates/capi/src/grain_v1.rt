// Grain v1.
ghost use Rattle.refusals.specs.Signed.{Returns};
ghost use Rattle.grainv1.specs.Calls as calls;

pub fn tikhoplav_grainv1_crypt(key: &[u8], nonce: &[u8], message: &[u8], out: &mut [u8]) -> i64
    ensures { Returns (calls.crypted key.now nonce.now message.now out.old) result out.new }
{
    refusals::signed(grainv1::crypt(key, nonce, message, out))
}
