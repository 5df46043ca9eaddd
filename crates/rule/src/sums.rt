// Readers of sums: sum, prod and factor. Each takes its part off the stack of specs/Machine.
ghost use Rattle.std.specs.Prelude.{◌≡◌, ◌∷◌};
ghost use Rattle.rule.specs.Frames.{Kind};
ghost use Rattle.rule.specs.Class.{open_paren, close_paren};
ghost use Rattle.rule.specs.Draft.{alone};
ghost use Rattle.rule.specs.Machine.{out, doing, want, factor, muls, adds, prod, sum};
ghost use Rattle.rule.specs.ReadsPart.{sign_byte, Takes};

use crate::kinds;
use crate::parts::{Place, Role};
use crate::text::{Reader, Unexpected};
use crate::tokens::{ABS_KIND, DECIMAL_KIND, INDEX_KIND, NAME_KIND, NUMBER_KIND};

// The kind of frame of "+" and "-".
#[tactic(auto, unfolding(crate::specs::ReadsPart::sign_byte))]
fn sign_kind(k: u8) -> Option<u8>
    ensures { result ≡ sign_byte k }
{
    match k {
        b'+' => Some(kinds::ADD_BYTE),
        b'-' => Some(kinds::SUBTRACT_BYTE),
        _ => None,
    }
}

impl<'a> Reader<'a> {
    // sum ")", the rest of a group.
    #[cycle(absolute_adds_factor_muls_parens_prod_sum)]
    fn parens(&mut self, d: usize) -> Result<(), Unexpected>
        ensures { Takes 1 (λ s. sum d (want close_paren ∷ s)) self.old self.new result }
    {
        self.sum(d)?;
        self.expect(b')')
    }

    // sum: prod {("+" or "-") prod}
    #[cycle(absolute_adds_factor_muls_parens_prod_sum)]
    pub fn sum(&mut self, d: usize) -> Result<(), Unexpected>
        ensures { Takes 1 (λ s. sum d s) self.old self.new result }
    {
        self.prod(d)?;
        self.adds(d)
    }

    // {("+" or "-") prod}
    #[cycle(absolute_adds_factor_muls_parens_prod_sum)]
    fn adds(&mut self, d: usize) -> Result<(), Unexpected>
        ensures { Takes 0 (λ s. adds d ∷ s) self.old self.new result }
    {
        let t = self.peek();
        let Some(kind) = sign_kind(t.kind) else {
            return Ok(());
        };
        self.at = t.end;
        self.prod(d)?;
        self.emit_kind(kind);
        self.adds(d)
    }

    // prod: factor {"*" factor}
    #[cycle(absolute_adds_factor_muls_parens_prod_sum)]
    fn prod(&mut self, d: usize) -> Result<(), Unexpected>
        ensures { Takes 1 (λ s. prod d s) self.old self.new result }
    {
        self.factor(d)?;
        self.muls(d)
    }

    // {"*" factor}
    #[cycle(absolute_adds_factor_muls_parens_prod_sum)]
    fn muls(&mut self, d: usize) -> Result<(), Unexpected>
        ensures { Takes 0 (λ s. muls d ∷ s) self.old self.new result }
    {
        if !self.eat(b'*') {
            return Ok(());
        }
        self.factor(d)?;
        self.emit_kind(kinds::MULTIPLY_BYTE);
        self.muls(d)
    }

    // "(" sum ")" and the frame of abs, after "abs".
    #[cycle(absolute_adds_factor_muls_parens_prod_sum)]
    fn absolute(&mut self, d: usize) -> Result<(), Unexpected>
        ensures { Takes 0 (λ s. want open_paren ∷ sum d (want close_paren ∷ doing (out (alone Kind.absolute)) ∷ s))
            self.old self.new result }
    {
        self.expect(b'(')?;
        self.parens(d)?;
        self.emit_kind(kinds::ABSOLUTE_BYTE);
        Ok(())
    }

    // factor: number, decimal, "i", "(" sum ")", "abs" "(" sum ")", or reference
    #[cycle(absolute_adds_factor_muls_parens_prod_sum)]
    fn factor(&mut self, d: usize) -> Result<(), Unexpected>
        ensures { Takes 1 (λ s. factor d ∷ s) self.old self.new result }
    {
        let t = self.take();
        let p = Place::from(t);
        match t.kind {
            NUMBER_KIND | DECIMAL_KIND => {
                self.emit_literal(p);
                Ok(())
            }
            INDEX_KIND => {
                self.emit_kind(kinds::INSTANCE_BYTE);
                Ok(())
            }
            NAME_KIND => {
                self.named(Role::Note, p);
                self.reference(p)
            }
            b'(' => {
                let e = self.enter(d);
                self.parens(e)
            }
            ABS_KIND => {
                let e = self.enter(d);
                self.absolute(e)
            }
            _ => Err(Unexpected::from(t)),
        }
    }
}
