// The head of a section: its entry count and its entries.
ghost use Rattle.std.specs.Prelude.{◌≡◌, true, false, MatchOption};
ghost use Rattle.captures.specs.Layout.{number_at, head_sound};
ghost use Rattle.captures.specs.Reading.{entry_of, entries_of};

// What a body is.
#[derive(Clone, Copy)]
pub enum Kind {
    Frame,
    Group,
}

// What an entry says of its body: the kind and the length.
#[derive(Clone, Copy)]
pub struct Entry {
    pub kind: Kind,
    pub size: usize,
}

// An entry, unless its kind is none of the two.
pub fn read(e: &[u8; 8]) -> Option<Entry>
    ensures { result ≡ entry_of (number_at 0 1 e.now) (number_at 1 3 e.now) }
{
    let kind = match e[0] {
        0 => Kind::Frame,
        1 => Kind::Group,
        _ => return None,
    };
    let size = bits::number(&e[1..4]) as usize;
    Some(Entry { kind, size })
}

// The offset of an entry's body from the section's start.
fn offset(e: &[u8; 8]) -> usize
    ensures { result ≡ number_at 4 4 e.now }
{
    bits::number(&e[4..]) as usize
}

// The entries of a section, if its head is sound.
pub fn sound(s: &[u8]) -> Option<&[[u8; 8]]>
    ensures { MatchOption result (head_sound s.now ≡ false) (λ es. (head_sound s.now ≡ true) × (es.now ≡ entries_of s.now)) }
{
    if s.len() < 2 {
        return None;
    }
    let count = bits::number(&s[..2]) as usize;
    if 255 < count {
        return None;
    }
    let mut place = 2 + 8 * count;
    if s.len() < place {
        return None;
    }
    let (entries, _) = s[2..place].as_chunks::<8>();
    for e in entries {
        let entry = read(e)?;
        if offset(e) != place {
            return None;
        }
        place += entry.size;
    }
    if place != s.len() {
        return None;
    }
    Some(entries)
}
