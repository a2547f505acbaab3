// The two parts of a sealed input, whose tag has any number of bytes.
#![tactic(auto)]

ghost use Rattle.std.specs.Prelude.{◌≡◌, ◌≤◌, length, take, drop};
ghost use Rattle.tagged.specs.Payload as payload;

// Where the tag part begins.
fn border(input: &[u8], size: usize) -> usize
    ensures { (result ≤ length input.now) × (take result input.now ≡ payload.ciphertext_part size input.now) × (drop result input.now ≡ payload.tag_part size input.now) }
{
    input.len().checked_sub(size).unwrap_or(input.len())
}

// All but the last `size` bytes of a sealed input; of an input of fewer bytes, the whole input.
pub fn ciphertext_part(input: &[u8], size: usize) -> &[u8]
    ensures { result.now ≡ payload.ciphertext_part size input.now }
{
    &input[..border(input, size)]
}

// The last `size` bytes of a sealed input; of an input of fewer bytes, nothing.
pub fn tag_part(input: &[u8], size: usize) -> &[u8]
    ensures { result.now ≡ payload.tag_part size input.now }
{
    &input[border(input, size)..]
}
