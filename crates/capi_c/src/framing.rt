// Making and reading frames.
ghost use Rattle.machine.specs.declared.edition.Edition.TheVariants.{First};
ghost use Rattle.refusals.specs.Signed.{Returns};
ghost use Rattle.frames.specs.Calls as calls;
ghost use Rattle.named_frames.specs.Calls as named;

#[unsafe(no_mangle)]
pub extern "C" fn tikhoplav_frame_make(
    key: &[u8],
    nonce: &[u8],
    identifier: u32,
    message: &[u8],
    out: &mut [u8],
) -> i64
    ensures { Returns (calls.made First key.now nonce.now identifier message.now out.old) result out.new }
{
    capi::framing::tikhoplav_frame_make(key, nonce, identifier, message, out)
}

#[unsafe(no_mangle)]
pub extern "C" fn tikhoplav_frame_read(
    key: &[u8],
    nonce: &[u8],
    identifier: u32,
    code: u32,
    field: &[u8],
    out: &mut [u8],
) -> i64
    ensures { Returns (calls.read First key.now nonce.now identifier code field.now out.old) result out.new }
{
    capi::framing::tikhoplav_frame_read(key, nonce, identifier, code, field, out)
}

#[unsafe(no_mangle)]
pub extern "C" fn tikhoplav_frame_make_edition(
    edition: u32,
    key: &[u8],
    nonce: &[u8],
    identifier: u32,
    message: &[u8],
    out: &mut [u8],
) -> i64
    ensures { Returns (named.made edition key.now nonce.now identifier message.now out.old) result out.new }
{
    capi::framing::tikhoplav_frame_make_edition(edition, key, nonce, identifier, message, out)
}

#[unsafe(no_mangle)]
pub extern "C" fn tikhoplav_frame_read_edition(
    edition: u32,
    key: &[u8],
    nonce: &[u8],
    identifier: u32,
    code: u32,
    field: &[u8],
    out: &mut [u8],
) -> i64
    ensures { Returns (named.read edition key.now nonce.now identifier code field.now out.old) result out.new }
{
    capi::framing::tikhoplav_frame_read_edition(edition, key, nonce, identifier, code, field, out)
}
