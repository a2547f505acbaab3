// CAN FD's length codes: the length that a code means, and the smallest code that holds a length.
#![tactic(auto)]

pub mod calls;

ghost use Rattle.std.specs.Prelude.{◌≡◌};
ghost use Rattle.length_codes.specs.LengthCodes as codes;

// The lengths in bytes of codes 0 to 15.
const LENGTHS: [usize; 16] = [0, 1, 2, 3, 4, 5, 6, 7, 8, 12, 16, 20, 24, 32, 48, 64];

// The length that a code means; of a number that is no code, 0.
pub fn coded_length(code: u32) -> usize
    ensures { result ≡ codes.coded_length code }
{
    LENGTHS.get(code as usize).copied().unwrap_or(0)
}

// The smallest code that holds a length; of a length over 64, 16, which is no code.
pub fn length_code(length: usize) -> u32
    ensures { result ≡ codes.length_code length }
{
    LENGTHS.partition_point(|l| *l < length) as u32
}
