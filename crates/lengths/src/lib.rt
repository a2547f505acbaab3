// The coded length of the AD: its definition, its laws and its size. The code that hands it to the machine is payload's.
#![tactic(auto)]

ghost use Rattle.std.specs.Prelude.{◌≡◌, length};
ghost use Rattle.lengths.specs.CodedLength.{coded_length};

// How many bytes the coded length of an AD of n bytes has.
pub fn coded_size(n: usize) -> usize
    ensures { result ≡ length (coded_length n) }
{
    if n <= 127 {
        return 1;
    }
    if n <= 255 {
        return 2;
    }
    3
}
