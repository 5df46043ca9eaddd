// Refusal 10: frames that are no rule in postfix order, with the place of the first. One pass; it counts the references too.
ghost use Rattle.std.specs.Prelude.{◌≡◌, ◌^◌, ◌<◌};
ghost use Rattle.rule.specs.Frames.{kind_of};
ghost use Rattle.rule.specs.References.{reference_count};
ghost use Rattle.rule.specs.Order.{step_by, frame_step, order_of};

use crate::{Frame, frames, kinds, limits};
use std::marker::Model;

// The frame at a place begins no rule with those before it; past the last one, the end is wrong.
#[derive(Clone, Copy)]
pub struct Misplaced {
    pub at: usize,
}

// Clauses see the place.
impl Model for Misplaced {
    ghost use Rattle.std.specs.Prelude.{ℕ};

    ghost Value = { ℕ };

    ghost view = { λ m. m.at };

    ghost inverse = { λ p. record { at = p } };
}

// What the frames so far have made: so many conditions below so many sums.
#[derive(Clone, Copy)]
pub struct Shape {
    pub conditions: usize,
    pub sums: usize,
}

impl Shape {
    // With one frame more, by its kind; none where that begins no rule. From fewer frames than 2^63. Called by with_frame.
    #[tactic(auto, using(crate::proofs::KindEffects::effects))]
    fn with_kind(self, kind: u8) -> Option<Shape>
        requires conditions_few { self.conditions < 2 ^ 63 }
        requires sums_few { self.sums < 2 ^ 63 }
        ensures { result ≡ step_by (kind_of kind) self.conditions self.sums }
    {
        let Shape { conditions, sums } = self;
        match kind {
            kinds::LITERAL_BYTE..=kinds::REFERENCE_BYTE => Some(Shape {
                conditions,
                sums: sums + 1,
            }),
            kinds::ADD_BYTE..=kinds::MULTIPLY_BYTE if 2 <= sums => Some(Shape {
                conditions,
                sums: sums - 1,
            }),
            kinds::ABSOLUTE_BYTE if 1 <= sums => Some(self),
            kinds::EQUAL_BYTE..=kinds::AT_LEAST_BYTE if sums == 2 => Some(Shape {
                conditions: conditions + 1,
                sums: 0,
            }),
            kinds::NOT_BYTE if 1 <= conditions && sums == 0 => Some(self),
            kinds::AND_BYTE..=kinds::IMPLIES_BYTE if 2 <= conditions && sums == 0 => {
                Some(Shape {
                    conditions: conditions - 1,
                    sums: 0,
                })
            }
            _ => None,
        }
    }

    // The same by its fields too, where a literal has at most so many decimals. Called by order.
    fn with_frame(self, x: Frame, most: u8) -> Option<Shape>
        requires conditions_few { self.conditions < 2 ^ 63 }
        requires sums_few { self.sums < 2 ^ 63 }
        ensures { result ≡ frame_step most x self.conditions self.sums }
    {
        if x.fields_fit(most) {
            self.with_kind(x.kind)
        } else {
            None
        }
    }
}

// How many references frames behind the head have, where they are a rule; else the place of the first that begins none.
#[tactic(auto, using(crate::proofs::FrameOrder::order_laws))]
pub fn order(frames: &[u8], most: u8) -> Result<usize, Misplaced>
    ensures { result ≡ order_of most frames.now }
{
    let n = frames.len() / limits::FRAME_BYTES;
    // No `Shape::default()`: the proof of the loop's invariant did not close with it.
    let mut made = Shape {
        conditions: 0,
        sums: 0,
    };
    let mut references = 0;
    for i in 0..n {
        let x = frames::frame_at(frames, i);
        let Some(next) = made.with_frame(x, most) else {
            return Err(Misplaced { at: i });
        };
        made = next;
        if x.kind == kinds::REFERENCE_BYTE {
            references += 1;
        }
    }
    if made.conditions == 1 && made.sums == 0 {
        Ok(references)
    } else {
        Err(Misplaced { at: n })
    }
}

// How many references the frames have, whatever the bytes are.
pub fn reference_count(frames: &[u8]) -> usize
    ensures { result ≡ reference_count frames.now }
{
    frames
        .chunks_exact(limits::FRAME_BYTES)
        .filter(|frame| frame[0] == kinds::REFERENCE_BYTE)
        .count()
}
