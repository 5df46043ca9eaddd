// What the counts and the window say of each reference of a rule.
ghost use Rattle.std.specs.Prelude.{◌≡◌, ◌≤◌, length};
ghost use Rattle.rule.specs.Limits.{frame_limit};
ghost use Rattle.rule.specs.Tree.{LimitsR};
ghost use Rattle.rule.specs.References.{reference_byte, reference_of};
ghost use Rattle.rule.specs.Check.{checked_of};
ghost use Rattle.rule.specs.CheckTold as checking;
ghost use Rattle.verdict.specs.Found.{instance_limit};
ghost use Rattle.verdict.specs.Value.{note_of};
ghost use Rattle.checker.specs.Limits.{width_limit, window_words};
ghost use Rattle.checker.specs.Found.{found_in_window};
ghost use Rattle.checker.specs.Report.{mark_of};
ghost use Rattle.checker.specs.Sights.{found_of, ShowsAll, Limited};

use crate::words;
use rule::{FRAME_BYTES, Frame, kinds};
use verdict::{Instance, PENDING, PRESENT, VOID};

// What a reference is: present with its note's value, pending or void.
#[derive(Clone, Copy, PartialEq, Eq, Debug)]
pub enum Seen {
    Present(i32),
    Pending,
    Void,
}

impl Seen {
    // Its mark, as a byte.
    fn mark(self) -> u8
        ensures { result ≡ mark_of (found_of self) }
    {
        match self {
            Seen::Present(_) => PRESENT,
            Seen::Pending => PENDING,
            Seen::Void => VOID,
        }
    }

    // The note's value, 0 unless present.
    fn note(self) -> i32
        ensures { result ≡ note_of (found_of self) }
    {
        match self {
            Seen::Present(note) => note,
            Seen::Pending | Seen::Void => 0,
        }
    }
}

// An instance, and what its references are looked up in: W, the counts and the window.
#[derive(Clone, Copy)]
pub struct Sight<'a> {
    pub p: Instance,
    pub width: u32,
    pub counts: [u32; 8],
    pub window: &'a [i32],
    ghost instance_in: { p.0 ≤ instance_limit },
    ghost some: { 1 ≤ width },
    ghost most: { width ≤ width_limit },
    ghost words: { length window.now ≡ window_words width },
}

impl Sight<'_> {
    // A reference: pending from the event's count on.
    fn of_reference(&self, x: Frame) -> Seen
        requires { LimitsR (reference_of x) }
        ensures { found_of result
            ≡ found_in_window self.now.width self.now.counts self.now.window.now self.now.p.0 (reference_of x) }
    {
        match verdict::occurrence_of(self.p, x.factor, x.value) {
            None => Seen::Void,
            Some(k) => {
                if k.0 < self.counts[usize::from(x.event)] {
                    Seen::Present(self.window[words::word(self.width, x.event, k, x.note)])
                } else {
                    Seen::Pending
                }
            }
        }
    }

    // A frame of any kind.
    fn of_frame(&self, x: Frame) -> Seen
        requires { Limited x }
        ensures { x.kind ≡ reference_byte
            → found_of result
            ≡ found_in_window self.now.width self.now.counts self.now.window.now self.now.p.0 (reference_of x) }
    {
        if x.kind == kinds::REFERENCE_BYTE {
            self.of_reference(x)
        } else {
            Seen::Present(0)
        }
    }

    // A mark and a value for each of accepted frames; those of other kinds than references do not count. They stay two arrays:
    // `verdict::judge` takes them so. That frames are accepted is a clause here, in opening and in pulling, and no type: `judge`,
    // to whose contract the fact goes, takes frames.
    #[tactic(auto, using(crate::proofs::PullFound::few_frames))]
    pub fn look(&self, frames: &[u8], marks: &mut [u8; 64], notes: &mut [i32; 64])
        requires { (checked_of frames.now ≡ checking.accepted)
            × ((length marks.old ≡ frame_limit) × (length notes.old ≡ frame_limit)) }
        ensures { ShowsAll frames.now (found_in_window self.now.width self.now.counts self.now.window.now self.now.p.0)
            marks.new notes.new }
    {
        for k in 0..frames.len() / FRAME_BYTES {
            let seen = self.of_frame(rule::frame_at(frames, k));
            marks[k] = seen.mark();
            notes[k] = seen.note();
        }
    }
}
