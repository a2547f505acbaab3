// The table of length codes.
ghost use Rattle.std.specs.Prelude.{◌≡◌};
ghost use Rattle.refusals.specs.Signed.{signed_of};
ghost use Rattle.length_codes.specs.Calls.{length_of, code_of};

// The length that a code means, or minus 10.
#[unsafe(no_mangle)]
pub extern "C" fn tikhoplav_coded_length(code: u32) -> i64
    ensures { result ≡ signed_of (length_of code) }
{
    capi::codes::tikhoplav_coded_length(code)
}

// The smallest code that holds a length, or minus 10.
#[unsafe(no_mangle)]
pub extern "C" fn tikhoplav_length_code(length: usize) -> i64
    ensures { result ≡ signed_of (code_of length) }
{
    capi::codes::tikhoplav_length_code(length)
}
