// Opening: 9, 10, 7 and 8 by the check of frames, then 11, then 26; a fresh state and a cleared window.
ghost use Rattle.std.specs.Prelude.{◌≡◌, ◌-◌, ◌*◌, ◌≤◌, ◌&&◌, List, ◌++◌, length, replicate, ℤ, pos};
ghost use Rattle.std.specs.Prelude.{if◌then◌else◌, ◌==◌, Ok, Err};
ghost use Rattle.rule.specs.Limits.{frame_limit, frame_bytes};
ghost use Rattle.rule.specs.Check.{checked_of};
ghost use Rattle.rule.specs.CheckTold as checking;
ghost use Rattle.checker.specs.Limits.{window_words};
ghost use Rattle.checker.specs.Base.{first_for};
ghost use Rattle.checker.specs.Profile.{within_most};
ghost use Rattle.checker.specs.State.{zero_state, fresh_state};
ghost use Rattle.checker.specs.Open.{width_fits, open_def, open_outcome};
ghost use Rattle.checker.specs.Decided.{Decided};
ghost use Rattle.checker.specs.declared.Profile.TheVariants.{Desk, Board};
ghost use Rattle.checker.specs.declared.refusals.Refusal.TheVariants as refusals;

use crate::{Opened, Profile, Refusal, Returned, State, base, limits, parts};
use rule::FRAME_BYTES;
use verdict::Instance;

// Whether W is 1 to 256.
pub fn width_fits(width: u32) -> bool
    ensures { result ≡ width_fits width }
{
    (1..=limits::WIDTH_LIMIT).contains(&width)
}

// Whether a window of n words is as long as W asks.
pub fn window_fits(width: u32, n: usize) -> bool
    ensures { result ≡ (n == window_words width) }
{
    n == limits::WIDTH_WORDS * width as usize
}

// The frames, and zero after the last.
fn copied(frames: &[u8]) -> [u8; 512]
    requires { length frames.now ≤ frame_limit * frame_bytes }
    ensures { result ≡ frames.now ++ replicate (frame_limit * frame_bytes - length frames.now) 0 }
{
    let mut out = [0u8; 512];
    out[..frames.len()].copy_from_slice(frames);
    out
}

// All words become 0. A function of its own, so that its promise is tried by an edit.
fn clear(window: &mut [i32])
    ensures { window.new ≡ replicate (length window.old) (pos 0) }
{
    window.fill(0);
}

// What an unrefused opening gives back.
fn fresh(profile: Profile, frames: &[u8], width: u32, first: Instance) -> Opened
    requires { (checked_of frames.now ≡ checking.accepted) × (first.0 ≡ first_for frames.now) }
    ensures { result ≡ record { answer = Ok tt; state = fresh_state profile frames.now width } }
{
    let n = (frames.len() / FRAME_BYTES) as u32;
    let number = u32::from(profile);
    let bytes = copied(frames);
    Returned {
        answer: Ok(()),
        state: parts::at_first(bytes, n, width, number, first),
    }
}

// The state that is zero throughout.
fn zero() -> State
    ensures { result ≡ zero_state }
{
    let bytes = [0u8; 512];
    parts::at_first(bytes, 0, 0, 0, Instance(0))
}

// A refusal hands back the state that is zero throughout.
fn refuse(why: Refusal) -> Opened
    ensures { result ≡ record { answer = Err why; state = zero_state } }
{
    Returned {
        answer: Err(why),
        state: zero(),
    }
}

// 11, then 26: there are n frames, and so many words in the window.
fn fits(profile: Profile, n: usize, width: u32, words: usize) -> Result<(), Refusal>
    ensures { result
        ≡ (if width_fits width && words == window_words width
        then (if within_most profile width n then Ok tt else Err refusals.Board) else Err refusals.Opening) }
{
    if !(width_fits(width) && window_fits(width, words)) {
        return Err(Refusal::Opening);
    }
    if !profile.admits(width, n) {
        return Err(Refusal::Board);
    }
    Ok(())
}

// What opening decides before it writes: the first refusal that holds, if one does.
fn decide(profile: Profile, frames: &[u8], width: u32, words: usize) -> Result<(), Refusal>
    ensures { (win : List ℤ) → length win ≡ words → Decided profile frames.now width win result }
{
    rule::check(frames)?;
    fits(profile, frames.len() / FRAME_BYTES, width, words)
}

// Opens a checker, for desk and board, every slice of frames, every W and every window. It stands in each of its callers, since
// called from two places it would copy the state once more.
#[inline(always)]
pub fn open(profile: Profile, frames: &[u8], width: u32, window: &mut [i32]) -> Opened
    ensures { open_outcome result window.new
        ≡ open_def profile frames.now width window.old }
{
    match decide(profile, frames, width, window.len()) {
        Ok(()) => {
            let starts = base::starts_at(frames, Instance(0));
            clear(window);
            fresh(profile, frames, width, starts.first)
        }
        Err(why) => refuse(why),
    }
}

// Opens a checker for the desk: C's crate calls it, so that a program of the desk has the code of the desk alone.
pub fn open_desk(frames: &[u8], width: u32, window: &mut [i32]) -> Opened
    ensures { open_outcome result window.new ≡ open_def Desk frames.now width window.old }
{
    open(Profile::Desk, frames, width, window)
}

// Opens a checker for the board, in the same way.
pub fn open_board(frames: &[u8], width: u32, window: &mut [i32]) -> Opened
    ensures { open_outcome result window.new ≡ open_def Board frames.now width window.old }
{
    open(Profile::Board, frames, width, window)
}
