// Tokens: words, numbers and marks, by longest match.
ghost use Rattle.std.specs.Option.{unwrap_or};
ghost use Rattle.std.specs.Prelude.{◌≡◌, ℕ, cond, ◌+◌, ◌≤◌, length};
ghost use Rattle.rule.specs.Class.{span};
ghost use Rattle.rule.specs.Token.{word_kind, longest_mark, mark_width, fraction, token_here, token_at, clause_at};

use crate::Token;
use crate::classes::{BLANK, DIGIT, LETTER, MARK, class_of};

// Kinds of tokens; a mark of one byte has that byte for its kind. They stay numbers: `Quoted` and the theorems on it say so.
pub const END_KIND: u8 = 0;

pub const NAME_KIND: u8 = 1;

pub const NUMBER_KIND: u8 = 2;

pub const EVENTS_KIND: u8 = 3;

pub const NOTES_KIND: u8 = 4;

pub const INDEX_KIND: u8 = 5;

pub const ABS_KIND: u8 = 6;

// A number with a point, and the word of the clause.
pub const DECIMAL_KIND: u8 = 7;

pub const SCALE_KIND: u8 = 8;

pub const ARROW_KIND: u8 = 130;

pub const BARS_KIND: u8 = 131;

pub const AMPERSANDS_KIND: u8 = 132;

pub const UNEQUAL_KIND: u8 = 133;

pub const AT_MOST_KIND: u8 = 134;

pub const AT_LEAST_KIND: u8 = 135;

const FOREIGN_KIND: u8 = 255;

// How many bytes at the front have the class.
fn run(bytes: &[u8], class: u8) -> usize
    ensures value { result ≡ span class bytes.now }
    ensures within { result ≤ length bytes.now }
{
    bytes.iter().take_while(|b| class_of(**b) == class).count()
}

// The kind of a word: one of the four reserved ones, or a name.
#[tactic(auto, using(crate::proofs::TokenWords::word_kinds))]
fn word_kind(word: &[u8]) -> u8
    ensures { result ≡ word_kind word.now }
{
    match word {
        b"events" => EVENTS_KIND,
        b"notes" => NOTES_KIND,
        b"i" => INDEX_KIND,
        b"abs" => ABS_KIND,
        _ => NAME_KIND,
    }
}

// The kind of the mark that begins with `b`, with `n` after it, if that is not the end: the longest match.
#[tactic(auto, using(std::proofs::lemmas::Bool::Decides::nat_tests), unfolding(crate::specs::Token::longest_mark))]
fn mark_of(b: u8, n: Option<u8>) -> u8
    ensures { result ≡ longest_mark b (unwrap_or n 0) }
{
    match (b, n) {
        (b'-', Some(b'>')) => ARROW_KIND,
        (b'|', Some(b'|')) => BARS_KIND,
        (b'&', Some(b'&')) => AMPERSANDS_KIND,
        (b'!', Some(b'=')) => UNEQUAL_KIND,
        (b'<', Some(b'=')) => AT_MOST_KIND,
        (b'>', Some(b'=')) => AT_LEAST_KIND,
        (b'|' | b'&', _) => FOREIGN_KIND,
        _ => if class_of(b) == MARK { b } else { FOREIGN_KIND },
    }
}

// How many bytes a mark has.
#[tactic(auto, using(std::proofs::lemmas::Bool::Decides::nat_tests), unfolding(crate::specs::Token::mark_width))]
fn mark_width(kind: u8) -> usize
    ensures { result ≡ mark_width kind }
{
    match kind {
        ARROW_KIND..=AT_LEAST_KIND => 2,
        _ => 1,
    }
}

// How many bytes a point and digits after a run of digits have; 0 where there are none, or no points are taken.
#[tactic(auto, using(crate::proofs::TokenFractions::fractions))]
fn fraction(bytes: &[u8], points: bool) -> usize
    ensures value { result ≡ cond points (fraction bytes.now) 0 }
    ensures within { result ≤ length bytes.now }
{
    match bytes {
        [b'.', rest @ ..] if points => match run(rest, DIGIT) {
            0 => 0,
            n => n + 1,
        },
        _ => 0,
    }
}

// The kind of the token that these bytes begin with, and how many of them it has; of no bytes it is the end.
#[tactic(auto, using(crate::proofs::TokenNext::nexts), unfolding(crate::specs::Token::token_kind, crate::specs::Token::width_of))]
fn kind_and_width(bytes: &[u8], points: bool) -> (u8, usize)
    ensures { (s : ℕ) → token_here points s bytes.now
        ≡ record { kind = result.0; start = s; end = s + result.1 } }
{
    let [b, rest @ ..] = bytes else {
        return (END_KIND, 0);
    };
    match class_of(*b) {
        LETTER => {
            let n = 1 + run(rest, LETTER);
            (word_kind(&bytes[..n]), n)
        }
        DIGIT => {
            let n = run(rest, DIGIT);
            let w = fraction(&rest[n..], points);
            (if w == 0 { NUMBER_KIND } else { DECIMAL_KIND }, 1 + n + w)
        }
        MARK => {
            let kind = mark_of(*b, rest.first().copied());
            (kind, mark_width(kind))
        }
        _ => (FOREIGN_KIND, 1),
    }
}

// The next token from `at` on, where digits, a point and digits are one if points are taken; past the last one, the end.
#[tactic(auto, using(std::proofs::lemmas::List::take_rest), unfolding(crate::specs::Token::token_at))]
pub fn token_at(text: &[u8], at: usize, points: bool) -> Token
    requires { at ≤ length text.now }
    ensures { result ≡ token_at points text.now at }
{
    let start = at + run(&text[at..], BLANK);
    let (kind, width) = kind_and_width(&text[start..], points);
    Token {
        kind,
        start,
        end: start + width,
    }
}

// Whether the word of the clause stands there: `scale`, and a number after it.
#[tactic(auto, using(crate::proofs::TokenLists::clauses), unfolding(crate::specs::Token::clause_at))]
pub fn clause_at(text: &[u8], at: usize) -> bool
    requires { at ≤ length text.now }
    ensures { result ≡ clause_at text.now at }
{
    let t = token_at(text, at, false);
    let n = token_at(text, t.end, false);
    &text[t.start..t.end] == b"scale".as_slice() && n.kind == NUMBER_KIND
}
