// The layout of a sealed data field: the message's length M, the ciphertext, the tag, zeros.
ghost use Rattle.std.specs.Prelude.{◌≡◌, length};
ghost use Rattle.frame_checks.specs.Layout.{field_code, field_size};
ghost use Rattle.frame_checks.specs.Layout as layout;
ghost use Rattle.frame_checks.specs.Rows.{not_coded, wrong_length, filler_not_zero};

// The code of a message's field.
pub fn field_code(message: &[u8]) -> u32
    ensures { result ≡ field_code (length message.now) }
{
    length_codes::length_code(message.len() + 9)
}

// The size of a message's field.
pub fn field_size(message: &[u8]) -> usize
    ensures { result ≡ field_size (length message.now) }
{
    length_codes::coded_length(field_code(message))
}

// M, as a field has it; that of an empty field is 0.
pub fn announced(field: &[u8]) -> u8
    ensures { result ≡ layout.announced field.now }
{
    field.first().copied().unwrap_or(0)
}

// Whether the code is over 15, or the data is not of the coded length.
pub fn not_coded(code: u32, field: &[u8]) -> bool
    ensures { result ≡ not_coded code field.now }
{
    15 < code || field.len() != length_codes::coded_length(code)
}

// Whether there is no M, M is over 55, or the code is not the smallest for M + 9.
pub fn wrong_length(code: u32, field: &[u8]) -> bool
    ensures { result ≡ wrong_length code field.now }
{
    let m = announced(field);
    field.is_empty() || 55 < m || code != length_codes::length_code(m as usize + 9)
}

// Whether a byte behind the tag is not zero.
pub fn filler_not_zero(field: &[u8]) -> bool
    ensures { result ≡ filler_not_zero field.now }
{
    let start = announced(field) as usize + 9;
    field.iter().skip(start).any(|b| *b != 0)
}
