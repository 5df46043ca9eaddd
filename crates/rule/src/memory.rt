// What the reader remembers while it reads a text, and what depths, names and numbers do to that.
ghost use Rattle.std.specs.Prelude.{◌≡◌, cond, length};
ghost use Rattle.rule.specs.Spelling.{beyond};
ghost use Rattle.rule.specs.Measure.{sized_by};
ghost use Rattle.rule.specs.Machine.{deeper, enter, sized};
ghost use Rattle.rule.specs.Memory.{spot, first, blame, many-decimals, code_at, value_at, decimals_at};
ghost use Rattle.rule.specs.ReadsPart.{Inside, Acts, Recalls, remembered};

use crate::limits;
use crate::numerals::{decimals, number_value};
use crate::parts::{Limit, Place};
use crate::text::Reader;

// Registers: frames so far, at most 65; whether a depth was over 16; where the first bad number, the first of too many decimals
// and the first bad name start; how many events and notes are declared.
#[derive(Clone, Copy, Default)]
pub struct Registers {
    pub count: usize,
    pub deep: bool,
    pub number: Option<usize>,
    pub decimals: Option<usize>,
    pub name: Option<usize>,
    pub events: u8,
    pub notes: u8,
}

// A frame's bytes before they are written; `word` has the last four, big-endian. No `Frame`: `put` and `offset_of` of
// specs/Memory are over the word, and `Frame` has a signed number.
#[derive(Clone, Copy, Default)]
pub struct RawFrame {
    pub kind: u8,
    pub event: u8,
    pub note: u8,
    pub factor: u8,
    pub word: u32,
}

// One level further in; 17 stands for every depth over 16.
fn deeper(d: usize) -> usize
    ensures { result ≡ deeper d }
{
    if d <= limits::DEPTH_LIMIT { d + 1 } else { d }
}

// A first place, if there was none.
fn first(kept: Option<usize>, p: Place) -> Option<usize>
    ensures { spot result ≡ first (spot kept) p }
{
    kept.or(Some(p.start))
}

// A first place, if what stands at `p` is bad and there was none.
fn noted(bad: bool, kept: Option<usize>, p: Place) -> Option<usize>
    ensures { spot result ≡ cond bad (first (spot kept) p) (spot kept) }
{
    if bad { first(kept, p) } else { kept }
}

// Whether a number is beyond its limit.
fn over(limit: Limit, v: u32) -> bool
    ensures { result ≡ beyond limit v }
{
    match limit {
        Limit::OfClause => false,
        Limit::OfLiteral => limits::LITERAL_LIMIT < v,
        Limit::OfFactor => v == 0 || limits::FACTOR_NUMBER_LIMIT < v,
        Limit::OfOffset => limits::OFFSET_NUMBER_LIMIT < v,
    }
}

impl<'a> Reader<'a> {
    // Enters one level further in than `d`.
    pub fn enter(&mut self, d: usize) -> usize
        ensures level { result ≡ deeper d }
        ensures entered { Acts (enter (deeper d)) self.old self.new }
    {
        let e = deeper(d);
        if limits::DEPTH_LIMIT < e {
            self.memory.deep = true;
        }
        e
    }

    // Notes a bad name at `p`.
    pub fn blame(&mut self, p: Place)
        ensures { Recalls (blame p (remembered self.old)) self.old self.new }
    {
        self.memory.name = first(self.memory.name, p);
    }

    // Whether the number at `p` stands for or has more than 6 decimals: the clause's, and a literal.
    fn many_decimals(&self, limit: Limit, p: Place) -> bool
        requires { Inside (length self.now.text.now) p }
        ensures { result ≡ many-decimals (code_at self.now.text.now) (value_at self.now.text.now)
            (decimals_at self.now.text.now) (sized_by limit p) }
    {
        match limit {
            Limit::OfClause => (limits::DECIMAL_LIMIT as u32) < number_value(self.letters(p)),
            Limit::OfLiteral => (limits::DECIMAL_LIMIT as usize) < decimals(self.letters(p)),
            Limit::OfFactor => false,
            Limit::OfOffset => false,
        }
    }

    // Notes the number at `p`, whose limit is `limit`, if it is beyond that or has too many decimals.
    pub fn sized(&mut self, limit: Limit, p: Place)
        requires { Inside (length self.old.text.now) p }
        ensures { Acts (sized limit p) self.old self.new }
    {
        let bad = over(limit, number_value(self.letters(p)));
        self.memory.number = noted(bad, self.memory.number, p);
        self.memory.decimals = noted(self.many_decimals(limit, p), self.memory.decimals, p);
    }
}
