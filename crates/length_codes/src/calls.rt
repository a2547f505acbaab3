// The table of length codes as answers.
ghost use Rattle.std.specs.Prelude.{◌≡◌};
ghost use Rattle.length_codes.specs.Calls as calls;

use refusals::Refusal;

// The length that a code means, or the refusal of a number that is no code.
pub fn coded_length(code: u32) -> Result<usize, Refusal>
    ensures { result ≡ calls.length_of code }
{
    if 15 < code {
        return Err(Refusal::NotCodedLength);
    }
    Ok(crate::coded_length(code))
}

// The smallest code that holds a length, or the refusal of a length that no code holds.
pub fn length_code(length: usize) -> Result<usize, Refusal>
    ensures { result ≡ calls.code_of length }
{
    if 64 < length {
        return Err(Refusal::NotCodedLength);
    }
    let code = crate::length_code(length) as usize;
    Ok(code)
}
