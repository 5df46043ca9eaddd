// Readers of references: a note, an event and an index. Each takes its part off the stack of specs/Machine, whose symbols hold
// the places of the note `n` and the event `e` and the factor `f` one by one, as the readers hand them on.
ghost use Rattle.std.specs.Prelude.{◌∷◌, length};
ghost use Rattle.rule.specs.Token.{index_kind};
ghost use Rattle.rule.specs.Class.{open_paren, close_paren, open_bracket, close_bracket, star};
ghost use Rattle.rule.specs.Machine.{want, ref_event, ref_index, ref_shift, ref_by};
ghost use Rattle.rule.specs.ReadsPart.{Takes, Inside, InsideMultiple};

use crate::parts::{Limit, Multiple, Place, Role, Shift, Sign};
use crate::text::{Reader, Unexpected};
use crate::tokens::{INDEX_KIND, NAME_KIND, NUMBER_KIND};

impl<'a> Reader<'a> {
    // The number of an offset, and the frame of its reference.
    fn ref_by(&mut self, n: Place, e: Place, f: Multiple, g: Sign) -> Result<(), Unexpected>
        requires { Inside (length self.old.text.now) n × Inside (length self.old.text.now) e
            × InsideMultiple (length self.old.text.now) f }
        ensures { Takes 1 (λ s. ref_by n e f g ∷ s) self.old self.new result }
    {
        let p = Place::from(self.take_kind(NUMBER_KIND)?);
        self.sized(Limit::OfOffset, p);
        self.emit_reference(n, e, f, Shift::By(g, p));
        Ok(())
    }

    // [("+" or "-") number], and the frame of the reference.
    fn ref_shift(&mut self, n: Place, e: Place, f: Multiple) -> Result<(), Unexpected>
        requires { Inside (length self.old.text.now) n × Inside (length self.old.text.now) e
            × InsideMultiple (length self.old.text.now) f }
        ensures { Takes 0 (λ s. ref_shift n e f ∷ s) self.old self.new result }
    {
        let t = self.peek(); // once for both signs: `eat` would read the token again
        if t.kind == b'+' {
            self.at = t.end;
            return self.ref_by(n, e, f, Sign::Plus);
        }
        if t.kind == b'-' {
            self.at = t.end;
            return self.ref_by(n, e, f, Sign::Minus);
        }
        self.emit_reference(n, e, f, Shift::Unshifted);
        Ok(())
    }

    // "*" "i", after a number, and the rest of the index.
    fn ref_times(&mut self, n: Place, e: Place, p: Place) -> Result<(), Unexpected>
        requires { Inside (length self.old.text.now) n × Inside (length self.old.text.now) e
            × Inside (length self.old.text.now) p }
        ensures { Takes 0 (λ s. want star ∷ want index_kind ∷ ref_shift n e (Multiple.Times p) ∷ s)
            self.old self.new result }
    {
        self.expect(b'*')?;
        self.expect(INDEX_KIND)?;
        self.ref_shift(n, e, Multiple::Times(p))
    }

    // index: [number "*"] "i" [("+" or "-") number]
    fn ref_index(&mut self, n: Place, e: Place) -> Result<(), Unexpected>
        requires { Inside (length self.old.text.now) n × Inside (length self.old.text.now) e }
        ensures { Takes 1 (λ s. ref_index n e ∷ s) self.old self.new result }
    {
        let t = self.take();
        if t.kind == NUMBER_KIND {
            let p = Place::from(t);
            self.sized(Limit::OfFactor, p);
            return self.ref_times(n, e, p);
        }
        if t.kind == INDEX_KIND {
            return self.ref_shift(n, e, Multiple::Once);
        }
        Err(Unexpected::from(t))
    }

    // "[" index "]" ")"
    fn ref_brackets(&mut self, n: Place, e: Place) -> Result<(), Unexpected>
        requires { Inside (length self.old.text.now) n × Inside (length self.old.text.now) e }
        ensures { Takes 0 (λ s. want open_bracket ∷ ref_index n e ∷ want close_bracket ∷ want close_paren ∷ s)
            self.old self.new result }
    {
        self.expect(b'[')?;
        self.ref_index(n, e)?;
        self.expect(b']')?;
        self.expect(b')')
    }

    // The event of a reference, and what follows.
    fn ref_event(&mut self, n: Place) -> Result<(), Unexpected>
        requires { Inside (length self.old.text.now) n }
        ensures { Takes 1 (λ s. ref_event n ∷ s) self.old self.new result }
    {
        let e = Place::from(self.take_kind(NAME_KIND)?);
        self.named(Role::Event, e);
        self.ref_brackets(n, e)
    }

    // "(" name "[" index "]" ")", after the note.
    pub fn reference(&mut self, n: Place) -> Result<(), Unexpected>
        requires { Inside (length self.old.text.now) n }
        ensures { Takes 0 (λ s. want open_paren ∷ ref_event n ∷ s) self.old self.new result }
    {
        self.expect(b'(')?;
        self.ref_event(n)
    }
}
