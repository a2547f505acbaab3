// The walk of a capture.
ghost use Rattle.std.specs.Prelude.{◌≡◌, ◌+◌, ◌≤◌, length};
ghost use Rattle.captures.specs.Layout.{capture_limit};
ghost use Rattle.captures.specs.Walk.{walk_section, walk_capture};
ghost use Rattle.captures.specs.Tallies as tallies;

use crate::entries::{Entry, Kind};
use crate::{FrameNumber, Part, body, entries};
use refusals::Refusal;

// Frames counted so far, and the place of the one that is sought, if it is among them.
#[derive(Clone, Copy)]
pub struct Tally {
    pub frames: usize,
    pub found: Option<Part>,
}

impl Tally {
    // Counts one frame more.
    fn count(&mut self, sought: FrameNumber, frame: Part)
        requires { self.old.frames ≤ capture_limit }
        ensures { self.new ≡ tallies.counted sought.0 self.old frame }
    {
        if self.frames == sought.0 as usize {
            self.found = Some(frame);
        }
        self.frames += 1;
    }
}

// Walks a section that begins at `base` of the capture, with so many levels left for it and the groups in it.
fn section(
    sought: FrameNumber,
    tally: &mut Tally,
    base: usize,
    levels: usize,
    s: &[u8],
) -> Result<(), Refusal>
    requires { (tally.old.frames ≤ base) × (base + length s.now ≤ capture_limit) }
    ensures { tallies.refused_or result tally.new ≡ tallies.tallied sought.0 tally.old base (walk_section levels s.now) }
{
    if levels == 0 {
        return Err(Refusal::TooDeep);
    }
    let Some(entries) = entries::sound(s) else {
        return Err(Refusal::BrokenCapture);
    };
    let mut place = 2 + 8 * entries.len();
    for e in entries {
        // `sound` has judged each entry, so `read` finds one.
        let Some(Entry { kind, size }) = entries::read(e) else {
            return Err(Refusal::BrokenCapture);
        };
        let b = &s[place..place + size];
        let start = base + place;
        match kind {
            Kind::Frame if body::is_frame(b) => tally.count(sought, Part { start, size }),
            Kind::Frame => return Err(Refusal::BrokenCapture),
            Kind::Group => section(sought, tally, start, levels - 1, b)?,
        }
        place += size;
    }
    Ok(())
}

// Walks a capture, counts its frames and looks for one of them.
pub fn capture(s: &[u8], sought: FrameNumber) -> Result<Tally, Refusal>
    ensures { result ≡ tallies.tallied sought.0 tallies.nothing 0 (walk_capture s.now) }
{
    if 65536 < s.len() {
        return Err(Refusal::BrokenCapture);
    }
    let mut tally = Tally {
        frames: 0,
        found: None,
    };
    section(sought, &mut tally, 0, 6, s)?;
    Ok(tally)
}
