// Kleene's tables, by the operators: `!`, `&` and `|`.
ghost use Rattle.std.specs.Prelude.{◌≡◌};
ghost use Rattle.rule.specs.Frames.{connective_at};
ghost use Rattle.verdict.specs.Kleene.{not_k, and_k, or_k, connected, truth};

use crate::Truth;
use rule::kinds;
use std::ops::{BitAnd, BitOr, Not};

// The truth value of a test.
impl From<bool> for Truth {
    ghost from_gives = { λ held t. t ≡ truth held };

    fn from(held: bool) -> Truth {
        if held { Truth::True } else { Truth::False }
    }
}

impl Not for Truth {
    type Output = Truth;

    ghost not_gives = { λ p r. r ≡ not_k p };

    fn not(self) -> Truth {
        match self {
            Truth::True => Truth::False,
            Truth::False => Truth::True,
            Truth::Unknown => Truth::Unknown,
        }
    }
}

impl BitAnd for Truth {
    type Output = Truth;

    ghost bitand_gives = { λ p q r. r ≡ and_k p q };

    fn bitand(self, q: Truth) -> Truth {
        match (self, q) {
            (Truth::False, _) | (_, Truth::False) => Truth::False,
            (Truth::True, Truth::True) => Truth::True,
            _ => Truth::Unknown,
        }
    }
}

impl BitOr for Truth {
    type Output = Truth;

    ghost bitor_gives = { λ p q r. r ≡ or_k p q };

    fn bitor(self, q: Truth) -> Truth {
        match (self, q) {
            (Truth::True, _) | (_, Truth::True) => Truth::True,
            (Truth::False, Truth::False) => Truth::False,
            _ => Truth::Unknown,
        }
    }
}

impl Truth {
    // The two as one: and, or, or else implies, by the kind byte.
    pub fn connected(self, kind: u8, q: Truth) -> Truth
        ensures { result ≡ connected (connective_at kind) self q }
    {
        match kind {
            kinds::AND_BYTE => self & q,
            kinds::OR_BYTE => self | q,
            _ => !self | q,
        }
    }
}
