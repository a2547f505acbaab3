// The table of length codes.
ghost use Rattle.std.specs.Prelude.{◌≡◌};
ghost use Rattle.refusals.specs.Signed.{signed_of};
ghost use Rattle.length_codes.specs.Calls.{length_of, code_of};

use length_codes::calls;

// The length that a code means, or minus 10.
pub fn tikhoplav_coded_length(code: u32) -> i64
    ensures { result ≡ signed_of (length_of code) }
{
    refusals::signed(calls::coded_length(code))
}

// The smallest code that holds a length, or minus 10.
pub fn tikhoplav_length_code(length: usize) -> i64
    ensures { result ≡ signed_of (code_of length) }
{
    refusals::signed(calls::length_code(length))
}
