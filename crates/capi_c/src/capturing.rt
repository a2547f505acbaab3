// Captures with groups.
ghost use Rattle.std.specs.Prelude.{◌≡◌};
ghost use Rattle.refusals.specs.Signed.{signed_of};
ghost use Rattle.captures.specs.Calls.{frames, found, start_of, size_of};

// How many frames a capture has, or minus the refusal.
#[unsafe(no_mangle)]
pub extern "C" fn tikhoplav_capture_frames(capture: &[u8]) -> i64
    ensures { result ≡ signed_of (frames capture.now) }
{
    capi::capturing::tikhoplav_capture_frames(capture)
}

// Where the body of the frame with a number begins in the capture, or minus the refusal.
#[unsafe(no_mangle)]
pub extern "C" fn tikhoplav_capture_frame(capture: &[u8], number: u64) -> i64
    ensures { result ≡ signed_of (start_of (found capture.now number)) }
{
    capi::capturing::tikhoplav_capture_frame(capture, number)
}

// The length of that body, or minus the refusal.
#[unsafe(no_mangle)]
pub extern "C" fn tikhoplav_capture_frame_size(capture: &[u8], number: u64) -> i64
    ensures { result ≡ signed_of (size_of (found capture.now number)) }
{
    capi::capturing::tikhoplav_capture_frame_size(capture, number)
}
