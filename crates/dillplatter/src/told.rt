// Answers as numbers: which answer, and the number and place of a refusal.
ghost use Rattle.std.specs.Prelude.{◌≡◌};
ghost use Rattle.rule.specs.ReadTold.{read_told};
ghost use Rattle.log_lines.specs.Earlier.{raise_told, lower_told};
ghost use Rattle.checker.specs.Answer.{open_told, feed_told, pull_told, refused};
ghost use Rattle.checker.specs.Refusals.{refusal_number, refusal_place};
ghost use Rattle.checker.specs.Tariff.{charge_told};
ghost use Rattle.dillplatter.specs.Told.{numbers_of, of_reading, answer_number, number_of, place_of, frames_of};
ghost use Rattle.dillplatter.specs.Told.{conversion_number, conversion_place, charge_number, charge_place, charge_cents};

use crate::{LoweredLine, RaisedLine};
use checker::{Refusal, Taken};
use log_lines::{BadOldLine, NotLowered};
use verdict::Verdict;

// The numbers of the answers, as include/dillplatter.h has them: C's, so no enum. The structs below have C's numbers too, 0 where
// nothing is refused, and so no Option or Result.
const REFUSED: u32 = 0;

const READ: u32 = 1;

const OPENED: u32 = 2;

const ACCEPTED: u32 = 3;

const IGNORED: u32 = 4;

const WAITING: u32 = 5;

const TRUE: u32 = 6;

const FALSE: u32 = 7;

const UNKNOWN: u32 = 8;

// An answer in numbers; number and place are 0 where nothing is refused, since `CallResult`, which is C's, takes the three.
#[derive(Clone, Copy)]
pub struct AnswerNumbers {
    pub answer: u32,
    pub number: u32,
    pub place: u32,
}

// An answer that is no refusal.
fn plain(answer: u32) -> AnswerNumbers
    ensures { result ≡ record { answer = answer; number = 0; place = 0 } }
{
    AnswerNumbers {
        answer,
        number: 0,
        place: 0,
    }
}

impl From<Refusal> for AnswerNumbers {
    ghost from_gives = { λ why n. n ≡ numbers_of (refused (refusal_number why) (refusal_place why)) };

    fn from(why: Refusal) -> AnswerNumbers {
        AnswerNumbers {
            answer: REFUSED,
            number: u32::from(why.number()),
            place: why.place(),
        }
    }
}

// An answer to opening.
impl From<Result<(), Refusal>> for AnswerNumbers {
    ghost from_gives = { λ a n. n ≡ numbers_of (open_told a) };

    fn from(a: Result<(), Refusal>) -> AnswerNumbers {
        match a {
            Ok(()) => plain(OPENED),
            Err(why) => why.into(),
        }
    }
}

// An answer to feeding.
impl From<Result<Taken, Refusal>> for AnswerNumbers {
    ghost from_gives = { λ a n. n ≡ numbers_of (feed_told a) };

    fn from(a: Result<Taken, Refusal>) -> AnswerNumbers {
        match a {
            Ok(Taken::Accepted) => plain(ACCEPTED),
            Ok(Taken::Ignored) => plain(IGNORED),
            Err(why) => why.into(),
        }
    }
}

// An answer to pulling.
impl From<Result<Option<Verdict>, Refusal>> for AnswerNumbers {
    ghost from_gives = { λ a n. n ≡ numbers_of (pull_told a) };

    fn from(a: Result<Option<Verdict>, Refusal>) -> AnswerNumbers {
        match a {
            Ok(Some(Verdict::True)) => plain(TRUE),
            Ok(Some(Verdict::False)) => plain(FALSE),
            Ok(Some(Verdict::Unknown)) => plain(UNKNOWN),
            Ok(None) => plain(WAITING),
            Err(why) => why.into(),
        }
    }
}

// A text that was read into so many frames, or not.
#[repr(C)]
#[derive(Clone, Copy)]
pub struct ReadResult {
    pub answer: u32,
    pub number: u32,
    pub place: u32,
    pub frames: u32,
}

impl From<Result<u32, rule::Refusal>> for ReadResult {
    ghost from_gives = { λ a r. (r.answer ≡ answer_number (of_reading (read_told a)))
        × ((r.number ≡ number_of (of_reading (read_told a))) × ((r.place ≡ place_of (of_reading (read_told a)))
        × (r.frames ≡ frames_of (of_reading (read_told a))))) };

    fn from(a: Result<u32, rule::Refusal>) -> ReadResult {
        match a {
            Ok(frames) => ReadResult {
                answer: READ,
                number: 0,
                place: 0,
                frames,
            },
            Err(why) => ReadResult {
                answer: REFUSED,
                number: u32::from(why.number()),
                place: why.place(),
                frames: 0,
            },
        }
    }
}

impl From<Result<[u8; 34], BadOldLine>> for RaisedLine {
    ghost from_gives = { λ a r. (r.number ≡ conversion_number (raise_told a).answer)
        × ((r.place ≡ conversion_place (raise_told a).answer) × (r.line ≡ (raise_told a).line)) };

    #[tactic(auto, unfolding(log_lines::specs::Earlier::raise_told))]
    fn from(a: Result<[u8; 34], BadOldLine>) -> RaisedLine {
        match a {
            Ok(line) => RaisedLine {
                number: 0,
                place: 0,
                line,
            },
            Err(bad) => RaisedLine {
                number: u32::from(bad.number()),
                place: bad.place,
                line: [0; 34],
            },
        }
    }
}

impl From<Result<[u8; 14], NotLowered>> for LoweredLine {
    ghost from_gives = { λ a r. (r.number ≡ conversion_number (lower_told a).answer)
        × ((r.place ≡ conversion_place (lower_told a).answer) × (r.line ≡ (lower_told a).line)) };

    #[tactic(auto, unfolding(log_lines::specs::Earlier::lower_told))]
    fn from(a: Result<[u8; 14], NotLowered>) -> LoweredLine {
        match a {
            Ok(line) => LoweredLine {
                number: 0,
                place: 0,
                line,
            },
            Err(lost) => LoweredLine {
                number: u32::from(lost.number()),
                place: lost.place(),
                line: [0; 14],
            },
        }
    }
}

// What charging gives: the number and place of a refusal, 0 where nothing is refused, and the cents, 0 where it is refused.
#[repr(C)]
#[derive(Clone, Copy)]
pub struct ChargeResult {
    pub number: u32,
    pub place: u32,
    pub cents: u64,
}

impl From<Result<u64, Refusal>> for ChargeResult {
    ghost from_gives = { λ a r. (r.number ≡ charge_number (charge_told a))
        × ((r.place ≡ charge_place (charge_told a)) × (r.cents ≡ charge_cents (charge_told a))) };

    fn from(a: Result<u64, Refusal>) -> ChargeResult {
        match a {
            Ok(cents) => ChargeResult {
                number: 0,
                place: 0,
                cents,
            },
            Err(why) => ChargeResult {
                number: u32::from(why.number()),
                place: why.place(),
                cents: 0,
            },
        }
    }
}
