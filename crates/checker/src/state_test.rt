// 12: the states that are turned down.
ghost use Rattle.std.specs.Prelude.{◌≡◌, ◌*◌, ◌≤◌, if◌then◌else◌, Some, None, take};
ghost use Rattle.std.specs.Prelude.{slice_index, slice_index_or};
ghost use Rattle.rule.specs.Limits.{event_limit, frame_limit, frame_bytes};
ghost use Rattle.rule.specs.Check.{checked_of};
ghost use Rattle.rule.specs.CheckTold as checking;
ghost use Rattle.checker.specs.State.{state_frames};
ghost use Rattle.checker.specs.Parts.{state_of};
ghost use Rattle.checker.specs.StateTest.{all_to, totals_pass, state_passes};
ghost use Rattle.checker.specs.BasePass.{bases_of, count_fits, rule_fits, tally_fits};

use crate::base::Base;
use crate::parts::Fields;
use crate::{Totals, base, limits, opening, profiles};
use rule::FRAME_BYTES;
use verdict::Instance;

// Whether opening with the state's profile would take its frames and W.
fn rule_fits(frames: &[u8; 512], len: u32, width: u32, number: u32) -> bool
    ensures { result ≡ rule_fits frames.now len width number }
{
    let n = len as usize;
    if !profiles::passes(number, width, n) {
        return false;
    }
    rule::check(&frames[..n * FRAME_BYTES]).is_ok() && opening::width_fits(width)
}

// Whether a count fits its event's base and W.
fn count_fits(width: u32, low: Base, count: u32) -> bool
    ensures { result ≡ count_fits width low count }
{
    match low.known() {
        None => count == 0,
        Some(low) => {
            count <= limits::LINE_LIMIT && u64::from(count) <= u64::from(low) + u64::from(width)
        }
    }
}

// Whether each count does.
fn counts_fit(width: u32, bases: [Base; 8], counts: [u32; 8]) -> bool
    ensures { result ≡ all_to event_limit (λ e. count_fits width (slice_index_or bases e None) (slice_index counts e)) }
{
    bases
        .iter()
        .zip(&counts)
        .all(|(low, count)| count_fits(width, *low, *count))
}

// Whether p is not below the first instance and the totals sum to p less it.
fn totals_fit(first: Instance, p: Instance, totals: Totals) -> bool
    ensures { result ≡ totals_pass first.0 p.0 totals }
{
    let sum = u64::from(totals.held) + u64::from(totals.failed) + u64::from(totals.unknown);
    u64::from(first.0) + sum == u64::from(p.0)
}

// Whether counts, p and totals are those of a checker with these frames: then the bases of the events.
fn tally_fits(frames: &[u8; 512], s: Fields) -> Option<[Base; 8]>
    requires { (s.len ≤ frame_limit) × (checked_of (take (s.len * frame_bytes) frames.now) ≡ checking.accepted) }
    ensures { let rule = take (s.len * frame_bytes) frames.now in
        result ≡ (if tally_fits rule s.width s.counts s.next.0 s.totals then Some (bases_of rule s.next.0) else None) }
{
    let p = s.next;
    if limits::INSTANCE_LIMIT < p.0 {
        return None;
    }
    let n = s.len as usize * FRAME_BYTES;
    let starts = base::starts_at(&frames[..n], p);
    let fits = counts_fit(s.width, starts.bases, s.counts) && totals_fit(starts.first, p, s.totals);
    fits.then_some(starts.bases)
}

// Whether 12 lets a state through, its frames, with those after the last, and its other fields: then the bases of the events.
pub fn state_passes(frames: &[u8; 512], s: Fields) -> Option<[Base; 8]>
    ensures { let state = state_of frames.now s in
        result ≡ (if state_passes state then Some (bases_of (state_frames state) s.next.0) else None) }
{
    if rule_fits(frames, s.len, s.width, s.profile) {
        tally_fits(frames, s)
    } else {
        None
    }
}
