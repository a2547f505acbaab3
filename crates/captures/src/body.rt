// A frame's body: identifier, length code, nonce, data.
ghost use Rattle.std.specs.Prelude.{◌≡◌};
ghost use Rattle.captures.specs.Layout.{identifier_part, code_part, nonce_part, data_part, is_frame};

use crate::parts;

pub fn identifier(body: &[u8]) -> &[u8]
    ensures { result.now ≡ identifier_part body.now }
{
    parts::part(body, 0, 4)
}

pub fn length_code(body: &[u8]) -> &[u8]
    ensures { result.now ≡ code_part body.now }
{
    parts::part(body, 4, 1)
}

pub fn nonce(body: &[u8]) -> &[u8]
    ensures { result.now ≡ nonce_part body.now }
{
    parts::part(body, 5, 12)
}

// What stands behind the nonce.
pub fn data(body: &[u8]) -> &[u8]
    ensures { result.now ≡ data_part body.now }
{
    parts::part(body, 17, body.len())
}

// Whether a body is a frame's: a legal identifier, a length code, data of the coded length and nothing more.
pub fn is_frame(body: &[u8]) -> bool
    ensures { result ≡ is_frame body.now }
{
    if body.len() < 17 {
        return false;
    }
    if 0x2000_0000 <= bits::number(&body[..4]) {
        return false;
    }
    let code = u32::from(body[4]);
    if 15 < code {
        return false;
    }
    body.len() == 17 + length_codes::coded_length(code)
}
