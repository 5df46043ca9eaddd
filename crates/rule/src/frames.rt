// A frame's fields: decoding, and which a kind may have.
ghost use Rattle.std.specs.Prelude.{◌≡◌, ◌+◌, ◌*◌, ◌≤◌, length};
ghost use Rattle.rule.specs.Limits.{frame_bytes};
ghost use Rattle.rule.specs.Frames.{kind_of, frame_at, literal_fields, reference_fields, bare_fields, fields_of};
ghost use Rattle.rule.specs.Scale.{head_fields};

use crate::{Frame, kinds, limits};

// The k-th frame. Called where it lies within the slice: by the passes of order.rt and sizes.rt, and by crates above.
pub fn frame_at(frames: &[u8], k: usize) -> Frame
    requires { k * frame_bytes + frame_bytes ≤ length frames.now }
    ensures { result ≡ frame_at frames.now k }
{
    let at = k * limits::FRAME_BYTES;
    let value = numbers::word(
        frames[at + 4],
        frames[at + 5],
        frames[at + 6],
        frames[at + 7],
    );
    Frame {
        kind: frames[at],
        event: frames[at + 1],
        note: frames[at + 2],
        factor: frames[at + 3],
        value,
    }
}

impl Frame {
    // The fields of a literal with at most so many decimals, of a reference, and of any other kind.
    fn literal_fields(self, most: u8) -> bool
        ensures { result ≡ literal_fields most self }
    {
        self.event <= most
            && self.note == 0
            && self.factor == 0
            && limits::LEAST_LITERAL <= self.value
    }

    fn reference_fields(self) -> bool
        ensures { result ≡ reference_fields self }
    {
        self.event < limits::EVENT_LIMIT
            && self.note < limits::NOTE_LIMIT
            && (1..=limits::FACTOR_LIMIT).contains(&self.factor)
            && self.value.unsigned_abs() <= limits::OFFSET_NUMBER_LIMIT
    }

    fn bare_fields(self) -> bool
        ensures { result ≡ bare_fields self }
    {
        self.event == 0 && self.note == 0 && self.factor == 0 && self.value == 0
    }

    // The fields of a head.
    pub(crate) fn head_fields(self) -> bool
        ensures { result ≡ head_fields self }
    {
        self.event <= limits::DECIMAL_LIMIT && self.note == 0 && self.factor == 0 && self.value == 0
    }

    // Whether a frame's fields are those of its kind, where a literal has at most so many decimals.
    pub(crate) fn fields_fit(self, most: u8) -> bool
        ensures { result ≡ fields_of most (kind_of self.kind) self }
    {
        match self.kind {
            kinds::LITERAL_BYTE => self.literal_fields(most),
            kinds::REFERENCE_BYTE => self.reference_fields(),
            _ => self.bare_fields(),
        }
    }
}
