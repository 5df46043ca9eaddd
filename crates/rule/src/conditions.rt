// Readers of conditions: cond, disj, conj and unit. Each takes its part off the stack of specs/Machine. `ors` and `ands`, as `muls`
// of sums.rt, stay a function each: each is of one symbol there, and document 01 names the readers that call each other.
ghost use Rattle.std.specs.Prelude.{◌≡◌, ◌∷◌};
ghost use Rattle.rule.specs.Class.{close_brace};
ghost use Rattle.rule.specs.Machine.{want, rel, unit, ands, ors, arrow, conj, sum, condition};
ghost use Rattle.rule.specs.ReadsPart.{rel_byte, Takes};

use crate::kinds;
use crate::text::{Reader, Unexpected};
use crate::tokens::{
    AMPERSANDS_KIND, ARROW_KIND, AT_LEAST_KIND, AT_MOST_KIND, BARS_KIND, UNEQUAL_KIND,
};

// The kind of frame of a relation.
#[tactic(auto, unfolding(crate::specs::ReadsPart::rel_byte))]
fn rel_kind(k: u8) -> Option<u8>
    ensures { result ≡ rel_byte k }
{
    match k {
        b'=' => Some(kinds::EQUAL_BYTE),
        UNEQUAL_KIND => Some(kinds::UNEQUAL_BYTE),
        b'<' => Some(kinds::LESS_BYTE),
        AT_MOST_KIND => Some(kinds::AT_MOST_BYTE),
        b'>' => Some(kinds::MORE_BYTE),
        AT_LEAST_KIND => Some(kinds::AT_LEAST_BYTE),
        _ => None,
    }
}

impl<'a> Reader<'a> {
    // rel sum, and the frame of the relation.
    fn compare(&mut self, d: usize) -> Result<(), Unexpected>
        ensures { Takes 1 (λ s. rel d ∷ s) self.old self.new result }
    {
        let t = self.take();
        let Some(kind) = rel_kind(t.kind) else {
            return Err(Unexpected::from(t));
        };
        self.sum(d)?;
        self.emit_kind(kind);
        Ok(())
    }

    // sum rel sum
    fn relation(&mut self, d: usize) -> Result<(), Unexpected>
        ensures { Takes 1 (λ s. sum d (rel d ∷ s)) self.old self.new result }
    {
        self.sum(d)?;
        self.compare(d)
    }

    // cond "}", the rest of a group.
    #[cycle(ands_arrow_braces_condition_conj_ors_unit)]
    fn braces(&mut self, d: usize) -> Result<(), Unexpected>
        ensures { Takes 1 (λ s. condition d (want close_brace ∷ s)) self.old self.new result }
    {
        self.condition(d)?;
        self.expect(b'}')
    }

    // cond: disj ["->" cond]; disj: conj {"||" conj}
    #[cycle(ands_arrow_braces_condition_conj_ors_unit)]
    pub fn condition(&mut self, d: usize) -> Result<(), Unexpected>
        ensures { Takes 1 (λ s. condition d s) self.old self.new result }
    {
        self.conj(d)?;
        self.ors(d)?;
        self.arrow(d)
    }

    // ["->" cond]
    #[cycle(ands_arrow_braces_condition_conj_ors_unit)]
    fn arrow(&mut self, d: usize) -> Result<(), Unexpected>
        ensures { Takes 0 (λ s. arrow d ∷ s) self.old self.new result }
    {
        if !self.eat(ARROW_KIND) {
            return Ok(());
        }
        let e = self.enter(d);
        self.condition(e)?;
        self.emit_kind(kinds::IMPLIES_BYTE);
        Ok(())
    }

    // {"||" conj}
    #[cycle(ands_arrow_braces_condition_conj_ors_unit)]
    fn ors(&mut self, d: usize) -> Result<(), Unexpected>
        ensures { Takes 0 (λ s. ors d ∷ s) self.old self.new result }
    {
        if !self.eat(BARS_KIND) {
            return Ok(());
        }
        self.conj(d)?;
        self.emit_kind(kinds::OR_BYTE);
        self.ors(d)
    }

    // conj: unit {"&&" unit}
    #[cycle(ands_arrow_braces_condition_conj_ors_unit)]
    fn conj(&mut self, d: usize) -> Result<(), Unexpected>
        ensures { Takes 1 (λ s. conj d s) self.old self.new result }
    {
        self.unit(d)?;
        self.ands(d)
    }

    // {"&&" unit}
    #[cycle(ands_arrow_braces_condition_conj_ors_unit)]
    fn ands(&mut self, d: usize) -> Result<(), Unexpected>
        ensures { Takes 0 (λ s. ands d ∷ s) self.old self.new result }
    {
        if !self.eat(AMPERSANDS_KIND) {
            return Ok(());
        }
        self.unit(d)?;
        self.emit_kind(kinds::AND_BYTE);
        self.ands(d)
    }

    // unit: "!" unit, or "{" cond "}", or sum rel sum
    #[cycle(ands_arrow_braces_condition_conj_ors_unit)]
    fn unit(&mut self, d: usize) -> Result<(), Unexpected>
        ensures { Takes 1 (λ s. unit d ∷ s) self.old self.new result }
    {
        let t = self.peek(); // once for both marks: `eat` would read the token again
        if t.kind == b'{' {
            self.at = t.end;
            let e = self.enter(d);
            return self.braces(e);
        }
        if t.kind != b'!' {
            return self.relation(d);
        }
        self.at = t.end;
        let e = self.enter(d);
        self.unit(e)?;
        self.emit_kind(kinds::NOT_BYTE);
        Ok(())
    }
}
