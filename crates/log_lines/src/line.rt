// The line of 34 digits.
ghost use Rattle.std.specs.Prelude.{◌≡◌, ◌+◌, ◌≤◌, length, take_while};
ghost use Rattle.log_lines.specs.Digit.{is_digit};
ghost use Rattle.log_lines.specs.Line.{line_digits, pair_from, noted, notes_of, bad_place_of, bad_place, line_told, line_of};

use crate::digit::{is_digit, read_pair};

// The four notes of a line. 'Note' is document 01's term for an event's annotation. Four fields, no array: what
// specs/Ring of crate checker says of a line (`notes_of`) names the four.
#[derive(Clone, Copy, PartialEq, Eq, Debug)]
pub struct Notes(pub i32, pub i32, pub i32, pub i32);

// What a log line holds ('log line' is document 01's term): an event with its notes.
#[derive(Clone, Copy, PartialEq, Eq, Debug)]
pub struct Line {
    pub event: u8,
    pub notes: Notes,
}

// Refusal 15, with its place.
#[derive(Clone, Copy, PartialEq, Eq, Debug)]
pub struct BadLine {
    pub place: u32,
}

impl BadLine {
    pub fn number(self) -> u8
        ensures { result ≡ 15 }
    {
        15
    }
}

// "A log line is 34 digits".
const DIGITS: usize = 34;

// The pair of digits from a place on.
fn pair_at(bytes: &[u8], at: usize) -> Option<u8>
    requires { at + 2 ≤ length bytes.now }
    ensures { result ≡ pair_from bytes.now at }
{
    read_pair(bytes[at], bytes[at + 1])
}

// The note from a place on.
#[tactic(auto, using(crate::proofs::Pairs::note_steps))]
fn note_at(bytes: &[u8], at: usize) -> Option<i32>
    requires { at + 8 ≤ length bytes.now }
    ensures { result ≡ noted bytes.now at }
{
    let a = pair_at(bytes, at)?;
    let b = pair_at(bytes, at + 2)?;
    let c = pair_at(bytes, at + 4)?;
    let d = pair_at(bytes, at + 6)?;
    Some(numbers::word(a, b, c, d))
}

// The four notes of a line.
#[tactic(auto, using(crate::proofs::Pairs::notes_steps))]
fn notes_of(bytes: &[u8]) -> Option<Notes>
    requires { length bytes.now ≡ line_digits }
    ensures { result ≡ notes_of bytes.now }
{
    let a = note_at(bytes, 2)?;
    let b = note_at(bytes, 10)?;
    let c = note_at(bytes, 18)?;
    let d = note_at(bytes, 26)?;
    Some(Notes(a, b, c, d))
}

// How many digits stand at the front.
fn digits_at_front(bytes: &[u8]) -> usize
    ensures { result ≡ length (take_while is_digit bytes.now) }
{
    bytes.iter().take_while(|b| is_digit(**b)).count()
}

// Where so many digits go wrong: the place of refusals 15 and 23.
#[tactic(auto, using(crate::proofs::Digits::front_counted, crate::proofs::Digits::front_taken))]
pub fn bad_place_of(digits: u32, bytes: &[u8]) -> u32
    ensures { result ≡ bad_place_of digits bytes.now }
{
    let within = bytes.len().min(digits as usize);
    digits_at_front(&bytes[..within]) as u32
}

// A line that is refused, with the place of refusal 15, which is looked for only then.
#[tactic(auto, unfolding(crate::specs::Line::bad_place))]
fn bad_line(bytes: &[u8]) -> BadLine
    ensures { result ≡ record { place = bad_place bytes.now } }
{
    BadLine {
        place: bad_place_of(DIGITS as u32, bytes),
    }
}

// Reads one line, without its LF. `let .. else` is the form that document 01 names for a pair that is no byte.
#[tactic(auto, using(crate::proofs::Lines::line_steps), unfolding(crate::specs::Line::line_told))]
pub fn read_line(bytes: &[u8]) -> Result<Line, BadLine>
    ensures { line_told result ≡ line_of bytes.now }
{
    if bytes.len() != DIGITS {
        return Err(bad_line(bytes));
    }
    let Some(event) = pair_at(bytes, 0) else {
        return Err(bad_line(bytes));
    };
    let Some(notes) = notes_of(bytes) else {
        return Err(bad_line(bytes));
    };
    Ok(Line { event, notes })
}
