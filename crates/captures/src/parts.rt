// Parts of a byte string.
ghost use Rattle.std.specs.Prelude.{◌≡◌};
ghost use Rattle.captures.specs.Layout as layout;

// At most n bytes from a place on: fewer where the string ends before.
pub fn part(s: &[u8], at: usize, n: usize) -> &[u8]
    ensures { result.now ≡ layout.part at n s.now }
{
    let rest = &s[at.min(s.len())..];
    &rest[..n.min(rest.len())]
}
