// What is asked of a key beside its size.
#![tactic(auto)]

ghost use Rattle.std.specs.Prelude.{◌≡◌};
ghost use Rattle.key.specs.BlankKey.{is_blank};

// Whether the key is 16 zero bytes. Of a key of that size every byte is read, whatever it holds.
pub fn is_blank(key: &[u8]) -> bool
    ensures { result ≡ is_blank key.now }
{
    key.len() == 16 && key.iter().fold(0, |joined, byte| joined | *byte) == 0
}
