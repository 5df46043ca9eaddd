// What feeding and pulling test first: 12, 13, then 27.
ghost use Rattle.std.specs.Prelude.{◌≡◌, IfOk, IfErr};
ghost use Rattle.checker.specs.State.{state_frames};
ghost use Rattle.checker.specs.Parts.{state_of};
ghost use Rattle.checker.specs.Refusals.{refusal_place};
ghost use Rattle.checker.specs.Admission.{admission, admission_told};
ghost use Rattle.checker.specs.BasePass.{bases_of};

use crate::base::Base;
use crate::parts::Fields;
use crate::{Refusal, opening, state_test, sum};

// Whether 12, 13 and 27 let a state and a window through: the bases of the events, or the refusal.
pub fn admit(frames: &[u8; 512], fields: Fields, window: &[i32]) -> Result<[Base; 8], Refusal>
    ensures told { admission_told result ≡ admission (state_of frames.now fields) window.now }
    ensures no_place { IfErr result (λ why. refusal_place why ≡ 0) }
    ensures bases { IfOk result (λ bases. bases ≡ bases_of (state_frames (state_of frames.now fields)) fields.next.0) }
{
    let bases = state_test::state_passes(frames, fields).ok_or(Refusal::State)?;
    if !opening::window_fits(fields.width, window.len()) {
        return Err(Refusal::Window);
    }
    if sum::sum_of(window) != fields.sum {
        return Err(Refusal::Sum);
    }
    Ok(bases)
}
