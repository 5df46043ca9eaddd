// Opening, feeding and pulling over a state by value and a lent window; the view of a report; the charge for rework.
#![tactic(auto)]

mod admission; // admission.rt: 12, 13 and 27, before a line or a pull
mod base; // base.rt: the base of each event, and the first instance
mod charging; // charging.rt: 28, 29, 12, the charge for rework
mod feeding; // feeding.rt: 12, 13, 27, 15, ignored, 16, 17
mod found; // found.rt: marks and notes of references
mod state_test; // state_test.rt: 12
mod limits; // limits.rt: the limits of the window, the counts and the report
mod opening; // opening.rt: 9, 10, 7, 8, 11, 26; a fresh checker
mod pricing; // pricing.rt: what violations cost by a tariff
mod profiles; // profiles.rt: the limits of desk and board
mod pulling; // pulling.rt: 12, 13, 27, 14, the next verdict or waiting
mod refusals; // refusals.rt: why a call is turned down
mod report; // report.rt: the report of a false verdict
mod parts; // parts.rt: a state taken apart, put together and changed
mod sum; // sum.rt: the sum of the window's words
mod viewing; // viewing.rt: 14, the view of a report
mod words; // words.rt: the window's words

pub use charging::charge;
pub use feeding::{feed, feed_admitted, feed_parts};
pub use limits::REPORT_LEAST;
pub use opening::{open, open_board, open_desk};
pub use parts::{Fields, fields_of, with_fields};
pub use pulling::{pull, pull_admitted, pull_parts};
pub use refusals::Refusal;
use verdict::{Instance, Verdict};
pub use viewing::view;

// A total for each of the verdicts true, false and unknown.
#[repr(C)]
#[derive(Clone, Copy, Default)]
pub struct Totals {
    pub held: u32,
    pub failed: u32,
    pub unknown: u32,
}

// The state, the document's term for what a checker carries from call to call. Its rule is the first `len` frames, of 8 bytes
// each; the bytes after them are carried and not looked at. `width` is the document's W, `next` its p; `profile` is 0 for the desk,
// 1 for the board, a number since the struct is C's; `sum` is the sum of the window's words, modulo 2^32.
#[repr(C)]
#[derive(Clone, Copy)]
pub struct State {
    pub frames: [u8; 512],
    pub len: u32,
    pub width: u32,
    pub profile: u32,
    pub counts: [u32; 8],
    pub next: Instance,
    pub totals: Totals,
    pub sum: u32,
}

// Who opens a checker: the desk, with W to 256 and 64 frames, or the board inside a plotter, with W to 32 and 16 frames.
#[derive(Clone, Copy)]
pub enum Profile {
    Desk,
    Board,
}

// What an opening, a feed or a pull hands back: its answer, and the state that is handed on. A refused opening's state is zero
// throughout.
#[derive(Clone, Copy)]
pub struct Returned<T> {
    pub answer: Result<T, Refusal>,
    pub state: State,
}

// What opening gives.
pub type Opened = Returned<()>;

// How a line that is not refused is taken: 'ignored' where its event isn't referenced. An enum, no bool: the two answers by their
// names.
#[derive(Clone, Copy, PartialEq, Eq, Debug)]
pub enum Taken {
    Accepted,
    Ignored,
}

// What feeding gives.
pub type Fed = Returned<Taken>;

// What pulling gives: the verdict of instance p, or None for 'waiting'.
pub type Pulled = Returned<Option<Verdict>>;

// A rework tariff: how many bands there are, at most four, the last number and the price of each, the price of all violations
// beyond them, in cents, and the surcharge in percent. Entries of bands that there are not are not looked at.
#[repr(C)]
#[derive(Clone, Copy)]
pub struct Tariff {
    pub bands: u32,
    pub lasts: [u32; 4],
    pub prices: [u32; 4],
    pub beyond: u32,
    pub surcharge: u32,
}
