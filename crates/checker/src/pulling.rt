// Pulling: 12, 13, 27, 14, then the verdict of the next instance or 'waiting'. Pull is the document's term.
ghost use Rattle.std.specs.Prelude.{◌≡◌, ◌*◌, ◌≤◌, length, Ok};
ghost use Rattle.rule.specs.Tree.{references};
ghost use Rattle.rule.specs.Build.{tree_of};
ghost use Rattle.rule.specs.Check.{checked_of};
ghost use Rattle.rule.specs.CheckTold as checking;
ghost use Rattle.verdict.specs.Settled.{judgement};
ghost use Rattle.checker.specs.Limits.{report_least};
ghost use Rattle.checker.specs.Parts.{state_of, returned};
ghost use Rattle.checker.specs.Pull.{offered, pull_report, pull_def, pull_outcome};
ghost use Rattle.checker.specs.Found.{found_in_window, given_in_window};
ghost use Rattle.checker.specs.Ready.{Ready};

use crate::found::Sight;
use crate::parts::Fields;
use crate::{Pulled, Refusal, Returned, State, admission, limits, parts, report};
use rule::FRAME_BYTES;
use verdict::Verdict;

// What is offered of an instance of accepted frames; the report is filled where that is false.
fn offer(frames: &[u8], sight: &Sight, report: &mut [u8]) -> Option<Verdict>
    requires { (checked_of frames.now ≡ checking.accepted) × (report_least ≤ length report.old) }
    ensures { let s = sight.now in
        (result ≡ judgement (given_in_window s.width s.counts s.window.now s.p.0) (tree_of frames.now))
        × (report.new ≡ pull_report s.p.0 (references (tree_of frames.now))
        (found_in_window s.width s.counts s.window.now s.p.0) report.old (offered result)) }
{
    let mut marks = [0u8; 64];
    let mut notes = [0i32; 64];
    sight.look(frames, &mut marks, &mut notes);
    let judged = verdict::judge(frames, sight.p, &marks, &notes);
    if judged == Some(Verdict::False) {
        report::fill(report, frames, sight.p, &marks, &notes);
    }
    judged
}

// Pulls from a checker that 12, 13 and 27 let through, into a buffer that 14 does, without testing them: for callers that carry
// the state from an opening. Frames, fields and window are no one type, as beside `feed_admitted`.
pub fn pull_admitted(
    frames: &[u8],
    fields: &mut Fields,
    window: &[i32],
    report: &mut [u8],
) -> Option<Verdict>
    requires { Ready frames.now fields.old window.now × (report_least ≤ length report.old) }
    ensures { pull_outcome (returned frames.now (Ok result) fields.new) report.new
        ≡ pull_def (state_of frames.now fields.old) window.now report.old }
{
    let n = fields.len as usize * FRAME_BYTES;
    let sight = Sight {
        p: fields.next,
        width: fields.width,
        counts: fields.counts,
        window,
    };
    let verdict = offer(&frames[..n], &sight, report)?;
    fields.count_verdict(verdict);
    Some(verdict)
}

// Pulls from a checker in parts, whatever the state, the window and the report buffer are.
pub fn pull_parts(
    frames: &[u8; 512],
    fields: &mut Fields,
    window: &[i32],
    report: &mut [u8],
) -> Result<Option<Verdict>, Refusal>
    ensures { pull_outcome (returned frames.now result fields.new) report.new
        ≡ pull_def (state_of frames.now fields.old) window.now report.old }
{
    admission::admit(frames, *fields, window)?;
    if report.len() < limits::REPORT_LEAST {
        return Err(Refusal::Report);
    }
    Ok(pull_admitted(frames, fields, window, report))
}

// Pulls the next verdict, for every state, every window and every report buffer.
pub fn pull(state: State, window: &[i32], report: &mut [u8]) -> Pulled
    ensures { pull_outcome result report.new ≡ pull_def state window.now report.old }
{
    let frames = state.frames;
    let mut fields = parts::fields_of(state);
    let answer = pull_parts(&frames, &mut fields, window, report);
    Returned {
        answer,
        state: parts::with_fields(frames, fields),
    }
}
