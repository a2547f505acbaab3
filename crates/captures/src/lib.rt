// Captures: sections of frames and groups, judged as a whole, and frames by number.
#![tactic(auto)]

pub mod body;
mod entries;
pub mod parts;
pub mod reader;
mod walk;

ghost use Rattle.std.specs.Prelude.{◌≡◌};
ghost use Rattle.captures.specs.Calls as calls;

use refusals::Refusal;

// The number of a frame, from 0 in walking order.
#[derive(Clone, Copy)]
pub struct FrameNumber(pub u64);

// A part of a capture: where it begins, and how many bytes it has.
#[derive(Clone, Copy)]
pub struct Part {
    pub start: usize,
    pub size: usize,
}

// How many frames a capture has.
pub fn frames(capture: &[u8]) -> Result<usize, Refusal>
    ensures { result ≡ calls.frames capture.now }
{
    walk::capture(capture, FrameNumber(0)).map(|t| t.frames)
}

// Where a frame lies.
pub fn find(capture: &[u8], number: FrameNumber) -> Result<Part, Refusal>
    ensures { result ≡ calls.found capture.now number.0 }
{
    let t = walk::capture(capture, number)?;
    t.found.ok_or(Refusal::PastLastFrame)
}

// The bytes of a frame that was found, a part of the capture; empty on refusal.
pub fn found_body(capture: &[u8], found: Result<Part, Refusal>) -> &[u8]
    ensures { result.now ≡ calls.body_of capture.now found }
{
    match found {
        Ok(p) => parts::part(capture, p.start, p.size),
        Err(_) => &capture[..0],
    }
}

// The body of the frame with a number, a part of the capture; empty on refusal.
pub fn frame(capture: &[u8], number: FrameNumber) -> &[u8]
    ensures { result.now ≡ calls.body_of capture.now (calls.found capture.now number.0) }
{
    found_body(capture, find(capture, number))
}

// Where the body of a frame begins in the capture, and its length.
pub fn frame_start(capture: &[u8], number: FrameNumber) -> Result<usize, Refusal>
    ensures { result ≡ calls.start_of (calls.found capture.now number.0) }
{
    find(capture, number).map(|p| p.start)
}

pub fn frame_size(capture: &[u8], number: FrameNumber) -> Result<usize, Refusal>
    ensures { result ≡ calls.size_of (calls.found capture.now number.0) }
{
    find(capture, number).map(|p| p.size)
}

// The number after a frame that was found; the same on refusal. It is one of 64 bits.
pub fn following(number: FrameNumber, found: Result<Part, Refusal>) -> FrameNumber
    ensures { result.0 ≡ calls.following_word number.0 found }
{
    match found {
        Ok(_) => FrameNumber(number.0.wrapping_add(1)),
        Err(_) => number,
    }
}
