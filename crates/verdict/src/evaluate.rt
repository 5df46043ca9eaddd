// The value of accepted frames at one instance: one pass, with a stack of sums and a stack of conditions.
ghost use Rattle.std.specs.Prelude.{◌≡◌, ◌<◌, length};
ghost use Rattle.rule.specs.Limits.{frame_limit};
ghost use Rattle.rule.specs.Frames.{kind_of, relation_at};
ghost use Rattle.verdict.specs.Marks.{Judgeable};
ghost use Rattle.verdict.specs.Pass.{with_reference, with_relation, pass_by, body_judgement, judgement_of};
ghost use Rattle.verdict.specs.Stacks.{SmallSides, Begun, BodyJudgeable};

use crate::arithmetic::Term;
use crate::{Instance, PENDING, PRESENT, Truth, Verdict, judgements};
use rule::{FRAME_BYTES, Frame, Stack, kinds};

/// After some frames: the sums' values and the conditions' truth values; whether a reference since the last relation is missing;
/// whether a reference is pending, and whether one is present.
#[derive(Drop)]
pub struct Pass {
    sums: Stack<Term>,
    missing: bool,
    conds: Stack<Truth>,
    pending: bool,
    present: bool,
}

impl Pass {
    // A reference with its mark and its note, which has so many decimals.
    fn put_reference(&mut self, scale: u8, mark: u8, note: i32)
        requires { length self.old.sums < frame_limit }
        ensures { self.new ≡ with_reference scale self.old mark note }
    {
        self.sums.push(Term::new(note, scale));
        self.missing |= mark != PRESENT;
        self.pending |= mark == PENDING;
        self.present |= mark == PRESENT;
    }

    // A relation of the two sums that are there.
    fn put_relation(&mut self, kind: u8)
        requires two { length self.old.sums ≡ 2 }
        requires sides { SmallSides self.old.sums }
        requires room { length self.old.conds < frame_limit }
        ensures { self.new ≡ with_relation self.old (relation_at kind) }
    {
        let (x, y) = self.sums.pop_two();
        let held = x.compared(kind, y);
        self.conds.push(if self.missing {
            Truth::Unknown // a reference is missing
        } else {
            Truth::from(held)
        });
        self.missing = false; // the next relation begins
    }

    // One frame more, by its kind, where each note has so many decimals.
    fn step(&mut self, x: Frame, scale: u8, i: Instance, mark: u8, note: i32)
        requires { Begun (kind_of x.kind) self.old (pass_by scale (kind_of x.kind) x i.0 mark note self.old) }
        ensures { self.new ≡ pass_by scale (kind_of x.kind) x i.0 mark note self.old }
    {
        match x.kind {
            kinds::LITERAL_BYTE => self.sums.push(Term::new(x.value, x.event)),
            kinds::INSTANCE_BYTE => self.sums.push(Term {
                amount: i64::from(i.0), // only here an instance number is a value
                decimals: 0,
            }),
            kinds::REFERENCE_BYTE => self.put_reference(scale, mark, note),
            kinds::ADD_BYTE..=kinds::MULTIPLY_BYTE => {
                let (a, b) = self.sums.pop_two();
                self.sums.push(a.joined(x.kind, b));
            }
            kinds::ABSOLUTE_BYTE => {
                let a = self.sums.pop();
                self.sums.push(a.abs());
            }
            kinds::EQUAL_BYTE..=kinds::AT_LEAST_BYTE => self.put_relation(x.kind),
            kinds::NOT_BYTE => {
                let p = self.conds.pop();
                self.conds.push(!p);
            }
            kinds::AND_BYTE..=kinds::IMPLIES_BYTE => {
                let (p, q) = self.conds.pop_two();
                self.conds.push(p.connected(x.kind, q));
            }
            _ => {} // no accepted frame has another kind
        }
    }
}

// The verdict of an instance, if it is settled, by the frames behind the head, with the marks and the notes of each.
fn judge_body(frames: &[u8], scale: u8, i: Instance, marks: &[u8], notes: &[i32]) -> Option<Verdict>
    requires { BodyJudgeable scale frames.now i.0 marks.now notes.now }
    ensures { result ≡ body_judgement scale frames.now i.0 marks.now notes.now }
{
    // Made in place: a function that hands it out copies 1,120 bytes, and a judgement of a short rule then takes twice the time.
    let mut pass = Pass {
        sums: Stack::new(Term::new(0, 0)),
        missing: false,
        conds: Stack::new(Truth::Unknown),
        pending: false,
        present: false,
    };
    for k in 0..frames.len() / FRAME_BYTES {
        pass.step(rule::frame_at(frames, k), scale, i, marks[k], notes[k]);
    }
    judgements::judged(pass.pending, pass.present, pass.conds.pop())
}

// The verdict of an instance of a rule, if it is settled. For each frame there is an entry in marks and in notes; those at a
// reference's frame are its mark (0 present, 1 pending, 2 void) and its note's value, and no others count. Called by crate
// checker, which proves what is required. Marks stay bytes: Judgeable, which docs/PROMISES.md names, lets any byte stand at other
// frames, and an enum would ask more.
pub fn judge(frames: &[u8], i: Instance, marks: &[u8], notes: &[i32]) -> Option<Verdict>
    requires { Judgeable frames.now i.0 marks.now notes.now }
    ensures { result ≡ judgement_of frames.now i.0 marks.now notes.now }
{
    let head = rule::head_of(frames);
    let h = head.frames;
    let at = h * FRAME_BYTES;
    judge_body(&frames[at..], head.decimals, i, &marks[h..], &notes[h..])
}
