// Which instances are settled, and their verdicts.
ghost use Rattle.std.specs.Prelude.{◌≡◌};
ghost use Rattle.verdict.specs.Kleene.{is_known};
ghost use Rattle.verdict.specs.Settled.{settled_by, verdict_of, judged_by};

use crate::{Truth, Verdict};

// The verdict of a settled instance.
impl From<Truth> for Verdict {
    ghost from_gives = { λ t v. v ≡ verdict_of t };

    fn from(t: Truth) -> Verdict {
        match t {
            Truth::True => Verdict::True,
            Truth::False => Verdict::False,
            Truth::Unknown => Verdict::Unknown,
        }
    }
}

// Settled is the document's term: no reference is pending, or one is present and the rule is true or false.
fn settled(pending: bool, present: bool, t: Truth) -> bool
    ensures { result ≡ settled_by pending present t }
{
    !pending || present && t != Truth::Unknown
}

// The verdict of an instance, if it is settled, from whether a reference is pending, whether one is present, and the rule's value.
pub fn judged(pending: bool, present: bool, t: Truth) -> Option<Verdict>
    ensures { result ≡ judged_by pending present t }
{
    settled(pending, present, t).then_some(Verdict::from(t))
}
