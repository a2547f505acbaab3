// A reader: a capture, and the number of the frame that comes next in it.
ghost use Rattle.std.specs.Prelude.{◌≡◌};
ghost use Rattle.captures.specs.Calls as calls;

use crate::{FrameNumber, Part};
use refusals::Refusal;

#[derive(Drop)]
pub struct Reader<'a> {
    pub capture: &'a [u8],
    pub next: FrameNumber,
}

// What a step gives: what was found, and the frame's body, a part of the capture, empty on refusal.
#[derive(Drop)]
pub struct Stepped<'a> {
    pub found: Result<Part, Refusal>,
    pub body: &'a [u8],
}

// A reader of a capture, before its first frame.
pub fn new<'a>(capture: &'a [u8]) -> Reader<'a>
    ensures { (result.capture ≡ capture.entry) × (result.next.0 ≡ 0) }
{
    Reader {
        capture,
        next: FrameNumber(0),
    }
}

// Gives the next frame's body and moves on by one, or refuses and stays.
pub fn step<'s, 'a>(r: &'s mut Reader<'a>) -> Stepped<'a>
    ensures { (result.found ≡ calls.found r.old.capture.now r.old.next.0) × (result.body.now ≡ calls.body_of r.old.capture.now result.found) × (r.new.capture ≡ r.old.capture) × (r.new.next.0 ≡ calls.following r.old.next.0 result.found) }
{
    let capture = r.capture;
    let number = r.next;
    let found = crate::find(capture, number);
    let body = crate::found_body(capture, found);
    r.next = crate::following(number, found);
    Stepped { found, body }
}

// The number of the frame that comes next.
pub fn next<'a>(r: Reader<'a>) -> FrameNumber
    ensures { result ≡ r.entry.next }
{
    r.next
}
