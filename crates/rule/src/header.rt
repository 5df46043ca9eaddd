// Readers of the declarations and of the clause. Each takes its part off the stack of specs/Machine. Each asks that no points
// are taken, by a clause: a type of its own would stand beside `Reader`, of which `ReadsPart` and the condition's readers speak.
ghost use Rattle.std.specs.Prelude.{◌≡◌, true, false, ◌∷◌, ℕ, suc, ◌<◌};
ghost use Rattle.rule.specs.Class.{semicolon};
ghost use Rattle.rule.specs.Token.{Mode, declares, body, clause_at};
ghost use Rattle.rule.specs.Machine.{want, name_of, names_of, clause, clause_number};
ghost use Rattle.rule.specs.ReadsPart.{ReadsPart};

use crate::parts::{Place, Role};
use crate::text::{Reader, Unexpected};
use crate::tokens::{NAME_KIND, NUMBER_KIND};

impl<'a> Reader<'a> {
    // A name, which is declared.
    fn name_of(&mut self, role: Role) -> Result<(), Unexpected>
        requires { self.old.points ≡ false }
        ensures { (n : ℕ) → ReadsPart (declares (suc n)) (declares (suc n)) 1 (λ s. name_of role ∷ s)
            self.old self.new result }
    {
        let t = self.take_kind(NAME_KIND)?;
        self.declare(role, Place::from(t));
        Ok(())
    }

    // {name}
    fn names_of(&mut self, role: Role) -> Result<(), Unexpected>
        requires { self.old.points ≡ false }
        ensures { (n : ℕ) → ReadsPart (declares (suc n)) (declares (suc n)) 0 (λ s. names_of role ∷ s)
            self.old self.new result }
    {
        let t = self.peek();
        if t.kind != NAME_KIND {
            return Ok(());
        }
        self.at = t.end;
        self.declare(role, Place::from(t));
        self.names_of(role)
    }

    // name {name} ";"
    fn name_list(&mut self, role: Role) -> Result<(), Unexpected>
        requires { self.old.points ≡ false }
        ensures { (n : ℕ) → ReadsPart (declares (suc n)) (declares n) 0
            (λ s. name_of role ∷ names_of role ∷ want semicolon ∷ s) self.old self.new result }
    {
        self.name_of(role)?;
        self.names_of(role)?;
        self.expect(b';')
    }

    // A reserved word, and the list that it begins.
    pub fn declarations(&mut self, word: u8, role: Role) -> Result<(), Unexpected>
        requires { (self.old.points ≡ false) × (0 < word) × (word < semicolon) }
        ensures { (n : ℕ) → ReadsPart (declares (suc n)) (declares n) 0
            (λ s. want word ∷ name_of role ∷ names_of role ∷ want semicolon ∷ s) self.old self.new result }
    {
        self.expect(word)?;
        self.name_list(role)
    }

    // number ";", after the clause's word, and the frame at the head.
    fn scale_number(&mut self) -> Result<(), Unexpected>
        requires { self.old.points ≡ false }
        ensures { ReadsPart Mode.clause (body true) 0 (λ s. clause_number ∷ want semicolon ∷ s)
            self.old self.new result }
    {
        let t = self.take_kind(NUMBER_KIND)?;
        self.emit_head(Place::from(t));
        self.expect(b';')
    }

    // ["scale" number ";"]: whether the clause stands there, `clause_at` has said.
    pub fn scale_clause(&mut self, here: bool) -> Result<(), Unexpected>
        requires { (self.old.points ≡ false) × (here ≡ clause_at self.old.text.now self.old.at) }
        ensures { ReadsPart (declares 0) (body here) 0 (λ s. clause ∷ s) self.old self.new result }
    {
        if !here {
            return Ok(());
        }
        self.take();
        self.scale_number()
    }
}
