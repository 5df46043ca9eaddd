// Feeding: 12, 13, 27, 15, ignored, 16, 17.
ghost use Rattle.std.specs.Prelude.{◌≡◌, ◌*◌};
ghost use Rattle.checker.specs.State.{state_frames};
ghost use Rattle.checker.specs.Parts.{state_of, returned};
ghost use Rattle.checker.specs.Ring.{notes_of};
ghost use Rattle.checker.specs.Feed.{fed_by, event_in, feed_def, feed_outcome};
ghost use Rattle.checker.specs.BasePass.{bases_of};
ghost use Rattle.checker.specs.Ready.{Ready};

use crate::base::Base;
use crate::parts::Fields;
use crate::words::Slot;
use crate::{Fed, Refusal, Returned, State, Taken, admission, base, limits, parts};
use log_lines::Line;
use rule::FRAME_BYTES;
use rule::limits::EVENT_LIMIT;
use verdict::Occurrence;

// A line that could be read, of any event, with the bases of a state that 12 lets through. The frames are lent for the contract
// alone, which speaks of the whole state; so in the next.
fn feed_event(
    frames: &[u8],
    fields: &mut Fields,
    bases: [Base; 8],
    window: &mut [i32],
    line: Line,
) -> Result<Taken, Refusal>
    requires { Ready frames.now fields.old window.old
        × (bases ≡ bases_of (state_frames (state_of frames.now fields.old)) fields.old.next.0) }
    ensures { feed_outcome (returned frames.now result fields.new) window.new
        ≡ fed_by (state_of frames.now fields.old) window.old
        (event_in (state_of frames.now fields.old) line.event (notes_of line.notes)) }
{
    // A test, and an index by `as`: with `bases.get`, and with `usize::from`, the proof did not close.
    let event = line.event;
    if EVENT_LIMIT <= event {
        return Ok(Taken::Ignored);
    }
    let e = event as usize;
    let Some(low) = bases[e].known() else {
        return Ok(Taken::Ignored);
    };
    let c = fields.counts[e];
    if limits::LINE_LIMIT <= c {
        return Err(Refusal::Lines);
    }
    let width = fields.width;
    if low + width <= c {
        return Err(Refusal::Full);
    }
    let slot = Slot {
        width,
        event,
        k: Occurrence(c),
    };
    let sum = slot.keep(window, fields.sum, low, line.notes);
    fields.count_line(event, sum);
    Ok(Taken::Accepted)
}

// A line fed to a checker that 12, 13 and 27 let through, with its bases.
fn feed_with(
    frames: &[u8],
    fields: &mut Fields,
    bases: [Base; 8],
    window: &mut [i32],
    line: &[u8],
) -> Result<Taken, Refusal>
    requires { Ready frames.now fields.old window.old
        × (bases ≡ bases_of (state_frames (state_of frames.now fields.old)) fields.old.next.0) }
    ensures { feed_outcome (returned frames.now result fields.new) window.new
        ≡ feed_def (state_of frames.now fields.old) window.old line.now }
{
    let line = log_lines::read_line(line)?;
    feed_event(frames, fields, bases, window, line)
}

// Feeds a line to a checker that 12, 13 and 27 let through, without testing them: for callers that carry the state from an opening.
// Frames, fields and window are no one type with that as its invariant, since a feed changes the window that it is lent and a pull
// only reads it: it would be two types, each built anew for a call.
pub fn feed_admitted(
    frames: &[u8],
    fields: &mut Fields,
    window: &mut [i32],
    line: &[u8],
) -> Result<Taken, Refusal>
    requires { Ready frames.now fields.old window.old }
    ensures { feed_outcome (returned frames.now result fields.new) window.new
        ≡ feed_def (state_of frames.now fields.old) window.old line.now }
{
    let n = fields.len as usize * FRAME_BYTES;
    let starts = base::starts_at(&frames[..n], fields.next);
    feed_with(frames, fields, starts.bases, window, line)
}

// Feeds a line to a checker in parts, whatever the state, the window and the line are.
pub fn feed_parts(
    frames: &[u8; 512],
    fields: &mut Fields,
    window: &mut [i32],
    line: &[u8],
) -> Result<Taken, Refusal>
    ensures { feed_outcome (returned frames.now result fields.new) window.new
        ≡ feed_def (state_of frames.now fields.old) window.old line.now }
{
    let bases = admission::admit(frames, *fields, window)?;
    feed_with(frames, fields, bases, window, line)
}

// Feeds a line, for every state, every window and every line.
pub fn feed(state: State, window: &mut [i32], line: &[u8]) -> Fed
    ensures { feed_outcome result window.new ≡ feed_def state window.old line.now }
{
    let frames = state.frames;
    let mut fields = parts::fields_of(state);
    let answer = feed_parts(&frames, &mut fields, window, line);
    Returned {
        answer,
        state: parts::with_fields(frames, fields),
    }
}
