// The library for makers of controllers: the calls of a checker, for desk and board, the view of a report, the converter of lines
// and the charge for rework, as C has them, answers as numbers. include/dillplatter.h declares them and says what each one does.
#![tactic(auto)]

mod told; // told.rt: answers as numbers

ghost use Rattle.std.specs.Prelude.{◌≡◌};
ghost use Rattle.rule.specs.Reading.{read_of};
ghost use Rattle.log_lines.specs.Earlier.{raised_def, lowered_def};
ghost use Rattle.checker.specs.Open.{open_def};
ghost use Rattle.checker.specs.Feed.{feed_def};
ghost use Rattle.checker.specs.Pull.{pull_def};
ghost use Rattle.checker.specs.View.{view_def};
ghost use Rattle.checker.specs.Tariff.{charge_def};
ghost use Rattle.checker.specs.declared.Profile.TheVariants.{Desk, Board};
ghost use Rattle.dillplatter.specs.Told.{of_reading, answer_number, number_of, place_of, frames_of, call_outcome, open_numbers};
ghost use Rattle.dillplatter.specs.Told.{feed_numbers, pull_numbers};
ghost use Rattle.dillplatter.specs.Told.{conversion_number, conversion_place, charge_number, charge_place, charge_cents};

use checker::{State, Tariff};
use told::{AnswerNumbers, ChargeResult, ReadResult};

// The state that a call hands back, its answer, and the number and place of a refusal, 0 where nothing is refused (C's, so no
// Result). Each call fills one in itself: a function for it was tried, and copies the state once more (examples/copies.c counts).
#[repr(C)]
#[derive(Clone, Copy)]
pub struct CallResult {
    pub state: State,
    pub answer: u32,
    pub number: u32,
    pub place: u32,
}

// What bringing an old line up gives: the number and place of a refusal, 0 where nothing is refused, and the line, zero bytes where
// it is refused. C's structs have no const parameter, so a line of 34 bytes and one of 14 have one each.
#[repr(C)]
#[derive(Clone, Copy)]
pub struct RaisedLine {
    pub number: u32,
    pub place: u32,
    pub line: [u8; 34],
}

// What bringing a line down gives, in the same way.
#[repr(C)]
#[derive(Clone, Copy)]
pub struct LoweredLine {
    pub number: u32,
    pub place: u32,
    pub line: [u8; 14],
}

// Reads a rule's text into frames, for every text and every buffer.
#[unsafe(no_mangle)]
pub extern "C" fn dillplatter_read(text: &[u8], frames: &mut [u8]) -> ReadResult
    ensures { (result.answer ≡ answer_number (of_reading (read_of text.now frames.old).0))
        × ((result.number ≡ number_of (of_reading (read_of text.now frames.old).0))
        × ((result.place ≡ place_of (of_reading (read_of text.now frames.old).0))
        × ((result.frames ≡ frames_of (of_reading (read_of text.now frames.old).0))
        × (frames.new ≡ (read_of text.now frames.old).1)))) }
{
    rule::read(text, frames).into()
}

// Opens a checker for the desk, for every slice of frames, every W and every window.
#[unsafe(no_mangle)]
pub extern "C" fn dillplatter_open(frames: &[u8], width: u32, window: &mut [i32]) -> CallResult
    ensures { call_outcome result window.new
        ≡ open_numbers (open_def Desk frames.now width window.old) }
{
    let opened = checker::open_desk(frames, width, window);
    let opening = AnswerNumbers::from(opened.answer);
    CallResult {
        state: opened.state,
        answer: opening.answer,
        number: opening.number,
        place: opening.place,
    }
}

// Opens a checker for the board, for every slice of frames, every W and every window.
#[unsafe(no_mangle)]
pub extern "C" fn dillplatter_open_board(
    frames: &[u8],
    width: u32,
    window: &mut [i32],
) -> CallResult
    ensures { call_outcome result window.new
        ≡ open_numbers (open_def Board frames.now width window.old) }
{
    let opened = checker::open_board(frames, width, window);
    let board_opening = AnswerNumbers::from(opened.answer);
    CallResult {
        state: opened.state,
        answer: board_opening.answer,
        number: board_opening.number,
        place: board_opening.place,
    }
}

// Feeds a line, for every state, every window and every line.
#[unsafe(no_mangle)]
pub extern "C" fn dillplatter_feed(state: State, window: &mut [i32], line: &[u8]) -> CallResult
    ensures { call_outcome result window.new
        ≡ feed_numbers (feed_def state window.old line.now) }
{
    let frames = state.frames;
    let mut counted = checker::fields_of(state);
    let fed = checker::feed_parts(&frames, &mut counted, window, line);
    let feeding = AnswerNumbers::from(fed);
    CallResult {
        state: checker::with_fields(frames, counted),
        answer: feeding.answer,
        number: feeding.number,
        place: feeding.place,
    }
}

// Pulls the next verdict, for every state, every window and every report buffer.
#[unsafe(no_mangle)]
pub extern "C" fn dillplatter_pull(state: State, window: &[i32], report: &mut [u8]) -> CallResult
    ensures { call_outcome result report.new
        ≡ pull_numbers (pull_def state window.now report.old) }
{
    let frames = state.frames;
    let mut moved = checker::fields_of(state);
    let pulled = checker::pull_parts(&frames, &mut moved, window, report);
    let pulling = AnswerNumbers::from(pulled);
    CallResult {
        state: checker::with_fields(frames, moved),
        answer: pulling.answer,
        number: pulling.number,
        place: pulling.place,
    }
}

// The view of a report buffer, for every buffer. A function for C can't return a part of a buffer: `part`, a pointer and a
// length, is the buffer before the call and the view after it. Answers the refusal's number, 0 where nothing is refused.
#[unsafe(no_mangle)]
pub extern "C" fn dillplatter_view<'a>(part: &mut &'a [u8]) -> u32
    ensures { (part.new.ref_ptr ≡ part.old.ref_ptr)
        × ((part.new.now ≡ (view_def part.old.now).bytes)
        × (result ≡ (view_def part.old.now).number)) }
{
    let report = *part;
    match checker::view(report) {
        Ok(view) => {
            *part = view;
            0
        }
        Err(why) => {
            *part = &report[..0];
            u32::from(why.number())
        }
    }
}

// Brings an old line up, for every slice.
#[unsafe(no_mangle)]
pub extern "C" fn dillplatter_raise(old: &[u8]) -> RaisedLine
    ensures { (result.number ≡ conversion_number (raised_def old.now).answer)
        × ((result.place ≡ conversion_place (raised_def old.now).answer)
        × (result.line ≡ (raised_def old.now).line)) }
{
    log_lines::raised(old).into()
}

// Brings a line down, for every slice.
#[unsafe(no_mangle)]
pub extern "C" fn dillplatter_lower(line: &[u8]) -> LoweredLine
    ensures { (result.number ≡ conversion_number (lowered_def line.now).answer)
        × ((result.place ≡ conversion_place (lowered_def line.now).answer)
        × (result.line ≡ (lowered_def line.now).line)) }
{
    log_lines::lowered(line).into()
}

// Charges the violations that a state counts, for every state and every tariff.
#[unsafe(no_mangle)]
pub extern "C" fn dillplatter_charge(state: State, tariff: Tariff) -> ChargeResult
    ensures { (result.number ≡ charge_number (charge_def state tariff))
        × ((result.place ≡ charge_place (charge_def state tariff))
        × (result.cents ≡ charge_cents (charge_def state tariff))) }
{
    checker::charge(state, tariff).into()
}
