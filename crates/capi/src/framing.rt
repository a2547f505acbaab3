// Making and reading frames.
ghost use Rattle.machine.specs.declared.edition.Edition.TheVariants.{First};
ghost use Rattle.refusals.specs.Signed.{Returns};
ghost use Rattle.frames.specs.Calls as calls;
ghost use Rattle.named_frames.specs.Calls as named;

use named_frames::{making, reading};

pub fn tikhoplav_frame_make(
    key: &[u8],
    nonce: &[u8],
    identifier: u32,
    message: &[u8],
    out: &mut [u8],
) -> i64
    ensures { Returns (calls.made First key.now nonce.now identifier message.now out.old) result out.new }
{
    refusals::signed(frames::make(key, nonce, identifier, message, out))
}

pub fn tikhoplav_frame_read(
    key: &[u8],
    nonce: &[u8],
    identifier: u32,
    code: u32,
    field: &[u8],
    out: &mut [u8],
) -> i64
    ensures { Returns (calls.read First key.now nonce.now identifier code field.now out.old) result out.new }
{
    refusals::signed(frames::read(key, nonce, identifier, code, field, out))
}

pub fn tikhoplav_frame_make_edition(
    edition: u32,
    key: &[u8],
    nonce: &[u8],
    identifier: u32,
    message: &[u8],
    out: &mut [u8],
) -> i64
    ensures { Returns (named.made edition key.now nonce.now identifier message.now out.old) result out.new }
{
    refusals::signed(making::make(edition, key, nonce, identifier, message, out))
}

pub fn tikhoplav_frame_read_edition(
    edition: u32,
    key: &[u8],
    nonce: &[u8],
    identifier: u32,
    code: u32,
    field: &[u8],
    out: &mut [u8],
) -> i64
    ensures { Returns (named.read edition key.now nonce.now identifier code field.now out.old) result out.new }
{
    refusals::signed(reading::read(edition, key, nonce, identifier, code, field, out))
}
