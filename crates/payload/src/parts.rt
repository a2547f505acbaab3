// The two parts of a sealed input.
ghost use Rattle.std.specs.Prelude.{◌≡◌};
ghost use Rattle.payload.specs.Payload as payload;

// All but the last 8 bytes of a sealed input; of an input of fewer than 8 bytes, the whole input.
pub fn ciphertext_part(input: &[u8]) -> &[u8]
    ensures { result.now ≡ payload.ciphertext_part input.now }
{
    tagged::ciphertext_part(input, 8)
}

// The last 8 bytes of a sealed input; of an input of fewer than 8 bytes, nothing.
pub fn tag_part(input: &[u8]) -> &[u8]
    ensures { result.now ≡ payload.tag_part input.now }
{
    tagged::tag_part(input, 8)
}
