// Lines of the earlier edition, of 14 digits: brought up to lines of 34 digits, and those brought down where nothing is lost. The
// digits are copied, as capitals; 'raised' and 'old line' are document 02's terms.
ghost use Rattle.std.specs.Prelude.{◌≡◌, cond, [], map, ◌+◌, ◌≤◌, leb, length};
ghost use Rattle.std.proofs.lemmas.List.Edits.{sets};
ghost use Rattle.log_lines.specs.Digit as digits;
ghost use Rattle.log_lines.specs.Line.{line_digits, AreDigits};
ghost use Rattle.log_lines.specs.Earlier.{old_digits, old_note_from, new_note, done, raise_told, raised_def};
ghost use Rattle.log_lines.specs.Earlier.{holds16, lower_number, lower_place, loss_told, loss_of, lower_told, lowered_def};
ghost use Rattle.log_lines.specs.declared.earlier.NotLowered.TheVariants.{Bad};

use crate::digit::{all_digits, capital, digit};
use crate::line::{BadLine, Notes, bad_place_of, read_line};

// "lines of 14 digits".
const OLD_DIGITS: u32 = 14;

// The digit 0.
const ZERO: u8 = b'0';

// Refusal 23, with its place; a type of its own, so that `?` does not make it a 15.
#[derive(Clone, Copy, PartialEq, Eq, Debug)]
pub struct BadOldLine {
    pub place: u32,
}

impl BadOldLine {
    pub fn number(self) -> u8
        ensures { result ≡ 23 }
    {
        23
    }
}

// Why a line is not brought down: refusal 15, refusal 24, or refusal 25 with its place.
#[derive(Clone, Copy, PartialEq, Eq, Debug)]
pub enum NotLowered {
    Bad(BadLine),
    Fourth,
    Wide(u32),
}

impl NotLowered {
    pub fn number(self) -> u8
        ensures { result ≡ lower_number self }
    {
        match self {
            NotLowered::Bad(line) => line.number(),
            NotLowered::Fourth => 24,
            NotLowered::Wide(_) => 25,
        }
    }

    // Its place; 24 names none, and has 0, as the definitions tell.
    pub fn place(self) -> u32
        ensures { result ≡ lower_place self }
    {
        match self {
            NotLowered::Bad(line) => line.place,
            NotLowered::Fourth => 0,
            NotLowered::Wide(place) => place,
        }
    }
}

impl From<BadLine> for NotLowered {
    ghost from_gives = { λ bad why. why ≡ Bad bad };

    fn from(bad: BadLine) -> NotLowered {
        NotLowered::Bad(bad)
    }
}

// Copies digits as capitals, to a place.
fn put_capitals(out: &mut [u8], at: usize, bytes: &[u8])
    requires { at + length bytes.now ≤ length out.old }
    ensures { out.new ≡ sets out.old at (map digits.capital bytes.now) }
{
    for (k, b) in bytes.iter().enumerate() {
        out[at + k] = capital(*b);
    }
}

// The digit before a note that gets longer: F where its first digit says that it is negative, else 0.
fn sign(first: u8) -> u8
    ensures { result ≡ cond (leb 8 (digits.digit_value first)) 0x46 0x30 }
{
    match digit(first) {
        Some(0..=7) => ZERO,
        _ => b'F',
    }
}

// Puts a note of an old line, four digits from a place on, as a note of eight.
fn put_raised(line: &mut [u8], at: usize, old: &[u8], from: usize)
    requires { (at + 8 ≤ length line.old) × ((from + 4 ≤ old_digits) × AreDigits old_digits old.now) }
    ensures { line.new ≡ sets line.old at (new_note (old_note_from old.now from) []) }
{
    line[at..at + 4].fill(sign(old[from]));
    put_capitals(line, at + 4, &old[from..from + 4]);
}

// The line of 34 digits that an old line becomes. Its last eight are 0 from the start.
#[tactic(auto, using(crate::proofs::Converting::up_steps))]
fn raised_line(old: &[u8]) -> [u8; 34]
    requires { AreDigits old_digits old.now }
    ensures { result ≡ (raised_def old.now).line }
{
    let mut line = [ZERO; 34];
    put_capitals(&mut line, 0, &old[0..2]);
    put_raised(&mut line, 2, old, 2);
    put_raised(&mut line, 10, old, 6);
    put_raised(&mut line, 18, old, 10);
    line
}

// Brings an old line up, for every slice.
#[tactic(auto, using(crate::proofs::Converting::up_steps))]
pub fn raised(old: &[u8]) -> Result<[u8; 34], BadOldLine>
    ensures { raise_told result ≡ raised_def old.now }
{
    if old.len() != OLD_DIGITS as usize || !all_digits(old) {
        return Err(BadOldLine {
            place: bad_place_of(OLD_DIGITS, old),
        });
    }
    Ok(raised_line(old))
}

// Whether 16 bits hold a note.
fn holds16(note: i32) -> bool
    ensures { result ≡ holds16 note }
{
    i16::try_from(note).is_ok()
}

// What is lost of four notes: 24, then 25 with its place.
#[tactic(auto, unfolding(crate::specs::Earlier::loss_told, crate::specs::Earlier::loss_of))]
fn loss_of(notes: Notes) -> Result<(), NotLowered>
    ensures { loss_told result ≡ loss_of notes.0 notes.1 notes.2 notes.3 }
{
    if notes.3 != 0 {
        return Err(NotLowered::Fourth);
    }
    for (note, place) in [(notes.0, 2), (notes.1, 10), (notes.2, 18)] {
        if !holds16(note) {
            return Err(NotLowered::Wide(place));
        }
    }
    Ok(())
}

// The line of 14 digits that a line becomes, of which nothing is lost: of each note the last four digits.
#[tactic(auto, using(crate::proofs::Converting::down_steps))]
fn lowered_line(line: &[u8]) -> [u8; 14]
    requires long { length line.now ≡ line_digits }
    requires done { (lowered_def line.now).answer ≡ done }
    ensures { result ≡ (lowered_def line.now).line }
{
    let mut old = [ZERO; 14];
    put_capitals(&mut old, 0, &line[0..2]);
    put_capitals(&mut old, 2, &line[6..10]);
    put_capitals(&mut old, 6, &line[14..18]);
    put_capitals(&mut old, 10, &line[22..26]);
    old
}

// Brings a line down, for every slice.
#[tactic(auto, using(crate::proofs::Converting::down_steps))]
pub fn lowered(line: &[u8]) -> Result<[u8; 14], NotLowered>
    ensures { lower_told result ≡ lowered_def line.now }
{
    let read = read_line(line)?;
    loss_of(read.notes)?;
    Ok(lowered_line(line))
}
