// Parts of a rule's text that the reader hands on, before names and numbers are looked up.
ghost use Rattle.std.specs.Prelude.{◌≡◌};
ghost use Rattle.rule.specs.Grammar.{place};

use crate::Token;

// Where a name or a number stands: from `start` up to, not including, `end`.
#[derive(Clone, Copy)]
pub struct Place {
    pub start: usize,
    pub end: usize,
}

// Where a token stands.
impl From<Token> for Place {
    ghost from_gives = { λ t p. p ≡ place t };

    fn from(t: Token) -> Place {
        Place {
            start: t.start,
            end: t.end,
        }
    }
}

// A name's role: an event or a note, document 01's word for an event's annotation.
#[derive(Clone, Copy)]
pub enum Role {
    Event,
    Note,
}

// Which limit a number has: that of the clause, of a literal, of the factor of i, or of an offset.
#[derive(Clone, Copy)]
pub enum Limit {
    OfClause,
    OfLiteral,
    OfFactor,
    OfOffset,
}

#[derive(Clone, Copy)]
pub enum Sign {
    Plus,
    Minus,
}

// The factor of i in an index: absent, or a number. No Option: `Once` stands for the factor 1 and `Unshifted` for 0, and the
// definitions of the grammar (specs/Grammar, Meaning) say these words.
#[derive(Clone, Copy)]
pub enum Multiple {
    Once,
    Times(Place),
}

// The offset in an index: absent, or a signed number. No Option, as above.
#[derive(Clone, Copy)]
pub enum Shift {
    Unshifted,
    By(Sign, Place),
}
