// Sums and relations of terms, which are 64-bit numbers with a count of decimals.
ghost use Rattle.std.specs.Prelude.{◌≡◌, ◌^◌, ◌≤◌, nat_abs};
ghost use Rattle.rule.specs.Limits.{magnitude_limit};
ghost use Rattle.rule.specs.Frames.{Arithmetic, arithmetic_at, relation_at};
ghost use Rattle.rule.specs.Decimals.{term, greater, left_side, right_side};
ghost use Rattle.verdict.specs.Value.{times_z, computed, size_of, holds, compared};
ghost use Rattle.verdict.specs.Stacks.{BothSmall, Joinable};

use rule::kinds;
use std::marker::Model;
use std::ops::{Add, Mul, Sub};

/// A value with its count of decimals. No generic type with crate rule's `Magnitude`: Rust wants `impl Add` in the type's crate.
#[derive(Clone, Copy)]
pub struct Term {
    pub amount: i64,
    pub decimals: u16,
}

// Clauses see the definitions' terms.
impl Model for Term {
    ghost use Rattle.std.specs.Prelude.{ℤ};
    ghost use Rattle.rule.specs.Decimals.{Term as TermOf, term};

    ghost Value = { TermOf ℤ };

    ghost view = { λ t. term t.amount t.decimals };

    ghost inverse = { λ t. record { amount = t.amount; decimals = t.decimals } };
}

// Both sides of a sum or a relation, brought to the greater count of decimals.
#[derive(Clone, Copy)]
struct Sides {
    left: i64,
    right: i64,
    decimals: u16,
}

impl Term {
    // A number of a rule or of a line, with its count of decimals.
    pub fn new(value: i32, decimals: u8) -> Term
        ensures { result ≡ term value decimals }
    {
        Term {
            amount: i64::from(value),
            decimals: u16::from(decimals),
        }
    }

    fn sides(self, y: Term) -> Sides
        requires { BothSmall self y }
        ensures left { result.left ≡ left_side times_z self y }
        ensures right { result.right ≡ right_side times_z self y }
        ensures decimals { result.decimals ≡ greater self y }
    {
        let most = self.decimals.max(y.decimals);
        Sides {
            left: bring(self.amount, most - self.decimals),
            right: bring(y.amount, most - y.decimals),
            decimals: most,
        }
    }

    // The two as one: add, subtract or else multiply, by the kind byte.
    pub fn joined(self, kind: u8, y: Term) -> Term
        requires { Joinable (arithmetic_at kind) self y }
        ensures { result ≡ computed (arithmetic_at kind) self y }
    {
        match kind {
            kinds::ADD_BYTE => self + y,
            kinds::SUBTRACT_BYTE => self - y,
            _ => self * y,
        }
    }

    pub fn abs(self) -> Term
        requires { nat_abs self.amount ≤ magnitude_limit }
        ensures { result ≡ size_of self }
    {
        Term {
            amount: self.amount.abs(),
            decimals: self.decimals,
        }
    }

    // Whether a relation holds, by the kind byte.
    pub fn compared(self, kind: u8, y: Term) -> bool
        requires { BothSmall self y }
        ensures { result ≡ compared (relation_at kind) self y }
    {
        let s = self.sides(y);
        holds(kind, s.left, s.right)
    }
}

// Each operator where its result fits.
impl Add for Term {
    type Output = Term;

    ghost can_add = { λ x y. Joinable Arithmetic.add x y };

    ghost add_gives = { λ x y r. r ≡ computed Arithmetic.add x y };

    fn add(self, y: Term) -> Term {
        let s = self.sides(y);
        Term {
            amount: s.left + s.right,
            decimals: s.decimals,
        }
    }
}

impl Sub for Term {
    type Output = Term;

    ghost can_sub = { λ x y. Joinable Arithmetic.subtract x y };

    ghost sub_gives = { λ x y r. r ≡ computed Arithmetic.subtract x y };

    fn sub(self, y: Term) -> Term {
        let s = self.sides(y);
        Term {
            amount: s.left - s.right,
            decimals: s.decimals,
        }
    }
}

impl Mul for Term {
    type Output = Term;

    ghost can_mul = { λ x y. Joinable Arithmetic.multiply x y };

    ghost mul_gives = { λ x y r. r ≡ computed Arithmetic.multiply x y };

    fn mul(self, y: Term) -> Term {
        Term {
            amount: self.amount * y.amount,
            decimals: self.decimals + y.decimals,
        }
    }
}

// A number times a power of ten, where the product fits.
fn bring(a: i64, e: u16) -> i64
    requires { nat_abs (times_z a (10 ^ e)) ≤ magnitude_limit }
    ensures { result ≡ times_z a (10 ^ e) }
{
    match e {
        0 => a,
        1..=rule::MOST_TENS => a * rule::ten_to(e).cast_signed(),
        _ => 0, // the product fits, so a is 0
    }
}

// Whether a relation holds of two numbers, by the kind byte.
fn holds(kind: u8, a: i64, b: i64) -> bool
    ensures { result ≡ holds (relation_at kind) a b }
{
    match kind {
        kinds::EQUAL_BYTE => a == b,
        kinds::UNEQUAL_BYTE => a != b,
        kinds::LESS_BYTE => a < b,
        kinds::AT_MOST_BYTE => a <= b,
        kinds::MORE_BYTE => a > b,
        _ => a >= b,
    }
}
