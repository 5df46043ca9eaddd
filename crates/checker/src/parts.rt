// A state taken apart, put together and changed; only here its fields are listed: the state is a struct of C's interface. The
// frames are lent, the other fields go by value; an array goes by a local, as the check has no proof for one stored straight.
ghost use Rattle.std.specs.Prelude.{◌≡◌, ℕ, ◌<◌, ◌≤◌, List, slice_index};
ghost use Rattle.rule.specs.Limits.{event_limit};
ghost use Rattle.verdict.specs.Found.{instance_limit};
ghost use Rattle.checker.specs.Limits.{line_limit};
ghost use Rattle.checker.specs.State.{totals_sum, counted, tally_from, with_line, with_verdict};
ghost use Rattle.checker.specs.State.{state_with, tally_in, with_tally, with_sum};
ghost use Rattle.checker.specs.Parts.{state_of};
ghost use Rattle.checker.specs.Offer.{Countable};

use crate::{State, Totals};
use verdict::{Instance, Verdict};

// The fields of a state beside its frames. They stand in `State` one by one, and not as a struct there: the theorems, and the
// header for C, speak of `state.sum` and the like.
#[derive(Clone, Copy)]
pub struct Fields {
    pub len: u32,
    pub width: u32,
    pub profile: u32,
    pub counts: [u32; 8],
    pub next: Instance,
    pub totals: Totals,
    pub sum: u32,
}

// What a state has beside its frames.
pub fn fields_of(s: State) -> Fields
    ensures { state_of s.frames result ≡ s }
{
    let counts = s.counts;
    Fields {
        len: s.len,
        width: s.width,
        profile: s.profile,
        counts,
        next: s.next,
        totals: s.totals,
        sum: s.sum,
    }
}

// The state of frames and the other fields.
pub fn with_fields(frames: [u8; 512], f: Fields) -> State
    ensures { result ≡ state_of frames f }
{
    let counts = f.counts;
    State {
        frames,
        len: f.len,
        width: f.width,
        profile: f.profile,
        counts,
        next: f.next,
        totals: f.totals,
        sum: f.sum,
    }
}

// A state with no line counted, no verdict pulled and a window of words that are 0.
pub fn at_first(frames: [u8; 512], len: u32, width: u32, profile: u32, next: Instance) -> State
    ensures { result ≡ state_with frames len width profile (tally_from next.0) 0 }
{
    State {
        frames,
        len,
        width,
        profile,
        counts: [0; 8],
        next,
        totals: Totals::default(),
        sum: 0,
    }
}

impl Totals {
    // A verdict's total goes up by 1.
    fn count(&mut self, v: Verdict)
        requires { totals_sum self.old ≤ instance_limit }
        ensures { self.new ≡ counted self.old v }
    {
        match v {
            Verdict::True => self.held += 1,
            Verdict::False => self.failed += 1,
            Verdict::Unknown => self.unknown += 1,
        }
    }
}

impl Fields {
    // One line more of an event, and the sum of the window then.
    #[tactic(auto, unfolding(crate::specs::State::with_tally, crate::specs::State::with_sum))]
    pub(crate) fn count_line(&mut self, event: u8, sum: u32)
        requires { (event < event_limit) × (slice_index self.old.counts event < line_limit) }
        ensures { (fs : List ℕ) → state_of fs self.new
            ≡ with_sum (with_tally (state_of fs self.old) (with_line (tally_in (state_of fs self.old)) event)) sum }
    {
        self.counts[usize::from(event)] += 1;
        self.sum = sum;
    }

    // p and that verdict's total go up by 1.
    #[tactic(auto, unfolding(crate::specs::State::with_tally))]
    pub(crate) fn count_verdict(&mut self, v: Verdict)
        requires { Countable self.old.totals self.old.next.0 }
        ensures { (fs : List ℕ) → state_of fs self.new
            ≡ with_tally (state_of fs self.old) (with_verdict (tally_in (state_of fs self.old)) v) }
    {
        self.totals.count(v);
        self.next = Instance(self.next.0 + 1);
    }
}
