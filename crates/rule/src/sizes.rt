// Refusal 8: magnitudes over 2^62, in one pass over frames that are a rule. Magnitude is the document's term for a bound on a sum.
ghost use Rattle.std.specs.Result.{is_ok};
ghost use Rattle.std.specs.Prelude.{◌≡◌, ◌+◌, ◌-◌, ◌*◌, ◌^◌, ◌≤◌, ◌<◌, [], ◌∷◌, length};
ghost use Rattle.rule.specs.Limits.{frame_bytes, frame_limit, decimal_limit};
ghost use Rattle.rule.specs.Frames.{kind_of};
ghost use Rattle.rule.specs.Frames as frame;
ghost use Rattle.rule.specs.Decimals.{greater};
ghost use Rattle.rule.specs.Tree.{grown};
ghost use Rattle.rule.specs.Order.{Orderly};
ghost use Rattle.rule.specs.Sizes.{pushed, sides_fit, sizes_after, sizes_fit};
ghost use Rattle.rule.specs.Stack.{all_decimals, EnoughSums};
ghost use Rattle.rule.specs.Magnitudes.{saturated, saturated_term, loaded};

use crate::{Frame, Stack, frames, kinds, limits};
use std::marker::Model;

// A magnitude with its count of decimals; the amount is 2^64 - 1 where it is more.
#[derive(Clone, Copy, Default)]
pub struct Magnitude {
    pub amount: u64,
    pub decimals: u16,
}

// Clauses see the definitions' terms.
impl Model for Magnitude {
    ghost use Rattle.std.specs.Prelude.{ℕ};
    ghost use Rattle.rule.specs.Decimals.{Term, term};

    ghost Value = { Term ℕ };

    ghost view = { λ m. term m.amount m.decimals };

    ghost inverse = { λ t. record { amount = t.amount; decimals = t.decimals } };
}

impl Magnitude {
    // The greater count of two.
    fn greater(self, other: Magnitude) -> u16
        ensures { result ≡ greater self other }
    {
        self.decimals.max(other.decimals)
    }

    // The amount brought to so many decimals; a 0 by no power.
    fn brought(self, decimals: u16) -> u64
        requires { self.decimals ≤ decimals }
        ensures { result ≡ saturated (self.amount * 10 ^ (decimals - self.decimals)) }
    {
        if decimals == self.decimals || self.amount == 0 {
            return self.amount; // as for a rule without decimals: saturating_mul would divide
        }
        let tens = u32::from(decimals - self.decimals);
        self.amount.saturating_mul(10u64.saturating_pow(tens))
    }

    // Of a sum, from those of its sides.
    fn plus(self, other: Magnitude) -> Magnitude
        ensures { result ≡ saturated_term (grown frame.add self other) }
    {
        let decimals = self.greater(other);
        Magnitude {
            amount: self
                .brought(decimals)
                .saturating_add(other.brought(decimals)),
            decimals,
        }
    }

    // Of a product.
    fn times(self, other: Magnitude) -> Magnitude
        requires { self.decimals + other.decimals < 2 ^ 16 }
        ensures { result ≡ saturated_term (grown frame.multiply self other) }
    {
        Magnitude {
            amount: self.amount.saturating_mul(other.amount),
            decimals: self.decimals + other.decimals,
        }
    }

    // Whether both sides of a relation are within the limit.
    fn sides_fit(self, other: Magnitude) -> bool
        ensures { result ≡ sides_fit self other }
    {
        let decimals = self.greater(other);
        self.brought(decimals) <= limits::MAGNITUDE_LIMIT
            && other.brought(decimals) <= limits::MAGNITUDE_LIMIT
    }
}

// A magnitude is over the limit.
#[derive(Clone, Copy)]
pub struct OverLimit;

// The magnitudes of the sums so far, the last on top.
impl Stack<Magnitude> {
    // One more on top, if it is within the limit.
    fn load(&mut self, m: Magnitude) -> Result<(), OverLimit>
        requires { length self.old < frame_limit }
        ensures { loaded self.new result ≡ pushed m self.old }
    {
        if limits::MAGNITUDE_LIMIT < m.amount {
            return Err(OverLimit);
        }
        self.push(m);
        Ok(())
    }

    // One frame more, where each note has so many decimals.
    fn step(&mut self, x: Frame, scale: u8) -> Result<(), OverLimit>
        requires enough { EnoughSums (kind_of x.kind) (length self.old) }
        requires room { length self.old < frame_limit }
        requires few { all_decimals self.old ≤ decimal_limit * frame_limit }
        ensures { loaded self.new result ≡ sizes_after scale (kind_of x.kind) x self.old }
    {
        match x.kind {
            kinds::LITERAL_BYTE => self.load(Magnitude {
                amount: u64::from(x.value.unsigned_abs()),
                decimals: u16::from(x.event),
            }),
            kinds::INSTANCE_BYTE => self.load(Magnitude {
                amount: limits::INSTANCE_MAGNITUDE,
                decimals: 0,
            }),
            kinds::REFERENCE_BYTE => self.load(Magnitude {
                amount: limits::REFERENCE_MAGNITUDE,
                decimals: u16::from(scale),
            }),
            kinds::ADD_BYTE | kinds::SUBTRACT_BYTE => {
                let (left, right) = self.pop_two();
                self.load(left.plus(right))
            }
            kinds::MULTIPLY_BYTE => {
                let (left, right) = self.pop_two();
                self.load(left.times(right))
            }
            kinds::EQUAL_BYTE..=kinds::AT_LEAST_BYTE => {
                let (left, right) = self.pop_two();
                if left.sides_fit(right) {
                    Ok(())
                } else {
                    Err(OverLimit)
                }
            }
            _ => Ok(()),
        }
    }
}

// Every magnitude is within the limit. Called by check_body, on the frames of a rule behind its head.
pub fn check_sizes(frames: &[u8], scale: u8) -> Result<(), OverLimit>
    requires rule { Orderly frames.now }
    requires short { length frames.now ≤ frame_limit * frame_bytes }
    requires scale_few { scale ≤ decimal_limit }
    ensures { is_ok result ≡ sizes_fit scale frames.now }
{
    let mut magnitudes = Stack::new(Magnitude::default());
    for i in 0..frames.len() / limits::FRAME_BYTES {
        magnitudes.step(frames::frame_at(frames, i), scale)?;
    }
    Ok(())
}
