// Verdicts: the three-valued meaning of accepted frames at one instance. Nothing here knows where notes come from.
#![tactic(auto)]

mod arithmetic; // arithmetic.rt: sums and relations of values with decimals
mod evaluate; // evaluate.rt: one pass over the frames
mod judgements; // judgements.rt: settled instances and their verdicts
mod kleene; // kleene.rt: three truth values
mod places; // places.rt: the occurrence that a reference means

pub use evaluate::judge;
pub use places::occurrence_of;

// An instance number, the document's term: which i.
#[repr(C)]
#[derive(Clone, Copy, PartialEq, Eq, Debug)]
pub struct Instance(pub u32);

// An occurrence number, the document's term: which line of one event.
#[derive(Clone, Copy, PartialEq, Eq, Debug)]
pub struct Occurrence(pub u32);

// The document's marks of a reference: present, pending, void. Bytes, no enum: see `judge`, and a report has the same bytes.
pub const PRESENT: u8 = 0;

pub const PENDING: u8 = 1;

pub const VOID: u8 = 2;

// A truth value of Kleene's logic.
#[derive(Clone, Copy, PartialEq, Eq, Debug)]
pub enum Truth {
    True,
    False,
    Unknown,
}

// The verdict of a settled instance, which a pull hands out: a type of its own, so that no relation's value is taken for a
// settled rule's.
#[derive(Clone, Copy, PartialEq, Eq, Debug)]
pub enum Verdict {
    True,
    False,
    Unknown,
}
