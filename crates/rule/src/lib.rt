// Rules: text, tokens, frames and their checks. Nothing here knows of logs.
#![tactic(auto)]

pub mod limits; // limits.rt: the limits of a rule
pub mod kinds; // kinds.rt: the kinds of frames
mod classes; // classes.rt: the class of a byte
mod tokens; // tokens.rt: the next token of a text
mod parts; // parts.rt: what the grammar's readers hand on
mod names; // names.rt: names as numbers
mod numerals; // numerals.rt: the value of a run of digits
mod text; // text.rt: a reader of a text, and the tokens that it takes
mod memory; // memory.rt: what the reader remembers; refusals 5 and 6
mod lookup; // lookup.rt: declared names; refusal 4
mod emit; // emit.rt: a frame is put into the buffer
mod references; // references.rt: readers of references
mod sums; // sums.rt: readers of sums
mod conditions; // conditions.rt: readers of conditions
mod header; // header.rt: readers of the declarations
mod reader; // reader.rt: the reader of a whole rule; refusals 1 to 8 and 18
mod frames; // frames.rt: a frame's fields
mod scale; // scale.rt: the head of frames
mod powers; // powers.rt: powers of ten
mod stacks; // stacks.rt: a stack of fixed size, for crate verdict too
mod order; // order.rt: refusal 10, and how many references there are
mod sizes; // sizes.rt: refusal 8

ghost use Rattle.std.specs.Prelude.{◌≡◌, ◌*◌, ◌≤◌, length};
ghost use Rattle.rule.specs.Limits.{frame_limit, frame_bytes, decimal_limit};
ghost use Rattle.rule.specs.Order.{order_of};
ghost use Rattle.rule.specs.Check.{whole_frames, after_order, checked_of};
ghost use Rattle.rule.specs.CheckTold.{check_told};
ghost use Rattle.rule.specs.Refusal.{refusal_number, refusal_place};
ghost use Rattle.rule.specs.declared.Refusal.TheVariants as refusals;

pub use frames::frame_at;
pub use limits::FRAME_BYTES;
pub use order::reference_count;
pub use powers::{MOST_TENS, ten_to};
pub use reader::read;
pub use scale::head_of;
use sizes::OverLimit;
pub use stacks::Stack;

// Why a rule is turned down, with the place where document 01 names one.
#[derive(Clone, Copy, PartialEq, Eq, Debug)]
pub enum Refusal {
    // The frames' buffer isn't 512 bytes.
    Buffer,
    // The text has 0 or over 1,024 bytes.
    TextLength,
    // The first token that with those before it begins no rule.
    Token(u32),
    // The first name that is too long, declared twice, too many, or undeclared in its role.
    Name(u32),
    // The first number beyond its limit.
    Number(u32),
    // The first number of the clause or literal with over 6 decimals.
    Decimals(u32),
    // Depth over 16, or over 64 frames.
    TooLarge,
    // No reference.
    NoReference,
    // A magnitude over 2^62.
    Magnitude,
    // The frames' length isn't 8 to 512 in steps of 8.
    FrameBytes,
    // The first frame that with those before it begins no rule.
    Order(u32),
}

impl Refusal {
    // The documents' number.
    pub fn number(self) -> u8
        ensures { result ≡ refusal_number self }
    {
        match self {
            Refusal::Buffer => 1,
            Refusal::TextLength => 2,
            Refusal::Token(_) => 3,
            Refusal::Name(_) => 4,
            Refusal::Number(_) => 5,
            Refusal::TooLarge => 6,
            Refusal::NoReference => 7,
            Refusal::Magnitude => 8,
            Refusal::FrameBytes => 9,
            Refusal::Order(_) => 10,
            Refusal::Decimals(_) => 18,
        }
    }

    // The place, 0 where none is named: no None, since the document's "place (0 if none is named)" is what the definitions tell.
    pub fn place(self) -> u32
        ensures { result ≡ refusal_place self }
    {
        match self {
            Refusal::Token(p)
            | Refusal::Name(p)
            | Refusal::Number(p)
            | Refusal::Decimals(p)
            | Refusal::Order(p) => p,
            _ => 0,
        }
    }
}

impl From<OverLimit> for Refusal {
    ghost from_gives = { λ over refusal. refusal ≡ refusals.Magnitude };

    fn from(_: OverLimit) -> Refusal {
        Refusal::Magnitude
    }
}

// A token of a text: its kind, and its place from `start` up to, not including, `end`.
#[derive(Clone, Copy)]
pub struct Token {
    pub kind: u8,
    pub start: usize,
    pub end: usize,
}

// A frame, the document's word for 8 bytes of a rule, by its fields; value is the offset or the literal.
#[derive(Clone, Copy, PartialEq, Eq, Debug)]
pub struct Frame {
    pub kind: u8,
    pub event: u8,
    pub note: u8,
    pub factor: u8,
    pub value: i32,
}

// The head of frames: how many frames it has, 0 or 1; how many decimals each note has; and the most that a literal may have.
// No Option of the scale: the place of refusal 10 adds `frames`, and the slice behind the head is cut by it.
#[derive(Clone, Copy, PartialEq, Eq, Debug, Default)]
pub struct Head {
    pub frames: usize,
    pub decimals: u8,
    pub most: u8,
}

// 8 to 512 bytes in steps of 8.
fn whole_frames(n: usize) -> bool
    ensures { result ≡ whole_frames n }
{
    (limits::FRAME_BYTES..=limits::BUFFER_BYTES).contains(&n) && n % limits::FRAME_BYTES == 0
}

// 10 with its place, 7 and 8 of the frames behind a head. Called by check.
fn check_body(frames: &[u8], head: Head) -> Result<(), Refusal>
    requires short { length frames.now ≤ frame_limit * frame_bytes }
    requires one { head.frames ≤ 1 }
    requires decimals_few { head.decimals ≤ decimal_limit }
    requires most_few { head.most ≤ decimal_limit }
    ensures { check_told result
        ≡ after_order head.frames head.decimals frames.now (order_of head.most frames.now) }
{
    match order::order(frames, head.most) {
        Err(misplaced) => Err(Refusal::Order((head.frames + misplaced.at) as u32)),
        Ok(0) => Err(Refusal::NoReference),
        Ok(_) => Ok(sizes::check_sizes(frames, head.decimals)?),
    }
}

// What opening checks of frames, whatever the bytes are: 9, 10, 7 and 8, in this order.
#[tactic(auto, unfolding(crate::specs::Check::checked_of))]
pub fn check(frames: &[u8]) -> Result<(), Refusal>
    ensures { check_told result ≡ checked_of frames.now }
{
    if !whole_frames(frames.len()) {
        return Err(Refusal::FrameBytes);
    }
    if !scale::head_fine(frames) {
        return Err(Refusal::Order(0));
    }
    let head = scale::head_of(frames);
    check_body(&frames[head.frames * limits::FRAME_BYTES..], head)
}
