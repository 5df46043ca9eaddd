// Log lines: digits, pairs of digits, the line of 34, that of the earlier edition, and the walk over a log of many lines. Nothing
// here knows of rules.
#![tactic(auto)]

mod digit; // digit.rt: digits and pairs of them
mod line; // line.rt: the line of 34 digits
mod earlier; // earlier.rt: the line of 14 digits of the earlier edition, and the converter
pub mod walk; // walk.rt: the lines of a log

pub use earlier::{BadOldLine, NotLowered, lowered, raised};
pub use line::{BadLine, Line, Notes, read_line};
