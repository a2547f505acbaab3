// The kinds of streams, and what a stream counts.
ghost use Rattle.std.specs.Prelude.{◌≡◌, length};
ghost use Rattle.stream_checks.specs.Counts as counts;

#[derive(Clone, Copy)]
pub enum Kind {
    Sealing = 1,
    Checking = 2,
}

// The kind by its number; the phase, 0 for open and 1 for finished; the announced length of the AD; the bytes taken so far of the AD and of the
// message.
#[derive(Clone, Copy)]
pub struct Counts {
    pub kind: u8,
    pub phase: u8,
    pub announced: u16,
    pub ad: u16,
    pub message: u16,
}

// The number of a kind.
pub fn number(kind: Kind) -> u8
    ensures { result ≡ counts.number kind }
{
    kind as u8
}

// Whether kind, phase and counts can occur, where a message has a limit.
pub fn can_occur(limit: usize, c: Counts) -> bool
    ensures { result ≡ counts.can_occur limit c }
{
    let complete = c.ad == c.announced;
    matches!(c.kind, 1 | 2)
        && matches!(c.phase, 0 | 1)
        && c.ad <= c.announced
        && (c.message == 0 || complete)
        && c.message as usize <= limit
        && (c.phase == 0 || complete)
}

// Whether a piece of AD is out of turn.
pub fn ad_out_of_turn(kind: Kind, c: Counts, piece: &[u8]) -> bool
    ensures { result ≡ counts.ad_out_of_turn kind c (length piece.now) }
{
    let beyond = (c.announced as usize) < c.ad as usize + piece.len();
    c.kind != number(kind) || c.phase != 0 || beyond
}

// Whether a piece of message or ciphertext, or the end, is out of turn.
pub fn out_of_turn(kind: Kind, c: Counts) -> bool
    ensures { result ≡ counts.out_of_turn kind c }
{
    c.kind != number(kind) || c.phase != 0 || c.ad != c.announced
}

// Whether a piece makes the message longer than its limit.
pub fn too_long(limit: usize, c: Counts, piece: &[u8]) -> bool
    ensures { result ≡ counts.too_long limit c (length piece.now) }
{
    limit < c.message as usize + piece.len()
}
