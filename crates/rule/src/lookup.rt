// Declared names: their places in the table, and what declaring and using them does.
ghost use Rattle.std.specs.Prelude.{◌≡◌, ◌≤◌, true, cond, leb, length};
ghost use Rattle.rule.specs.Name.{long_name};
ghost use Rattle.rule.specs.Spelling.{room};
ghost use Rattle.rule.specs.Machine.{declare, uses};
ghost use Rattle.rule.specs.Memory.{table, position, is_declared};
ghost use Rattle.rule.specs.ReadsPart.{Inside, Acts, remembered};

use crate::limits;
use crate::names::{LONG_NAME, name_code};
use crate::parts::{Place, Role};
use crate::text::Reader;

// How many names may be declared in a role.
fn most(role: Role) -> u8
    ensures { result ≡ room role }
{
    match role {
        Role::Event => limits::EVENT_LIMIT,
        Role::Note => limits::NOTE_LIMIT,
    }
}

impl<'a> Reader<'a> {
    // The names that are declared in a role.
    fn declared(&self, role: Role) -> &[u64]
        ensures names { result.now ≡ table role (remembered self.now) }
        ensures few { length result.now ≤ 8 }
    {
        match role {
            Role::Event => &self.names[..limits::EVENT_LIMIT.min(self.memory.events) as usize],
            Role::Note => {
                let notes = &self.names[limits::EVENT_LIMIT as usize..];
                &notes[..limits::NOTE_LIMIT.min(self.memory.notes) as usize]
            }
        }
    }

    // The place of a name among those declared in its role; how many there are if it is none of them, and no None, since `position`
    // of specs/Memory is that number.
    pub fn lookup(&self, role: Role, code: u64) -> u8
        ensures { result ≡ position code (table role (remembered self.now)) }
    {
        let declared = self.declared(role);
        declared
            .iter()
            .position(|&c| c == code)
            .unwrap_or(declared.len()) as u8
    }

    // Whether a name is declared in a role.
    fn is_declared(&self, role: Role, code: u64) -> bool
        ensures { result ≡ is_declared code (table role (remembered self.now)) }
    {
        self.declared(role).contains(&code)
    }

    // Notes the use of the name at `p`.
    pub fn named(&mut self, role: Role, p: Place)
        requires { Inside (length self.old.text.now) p }
        ensures { Acts (uses role p) self.old self.new }
    {
        let code = name_code(self.letters(p));
        if !self.is_declared(role, code) {
            self.blame(p);
        }
    }

    // Whether a declaration is bad: over 12 letters, declared already, or one too many.
    fn misnamed(&self, role: Role, code: u64) -> bool
        ensures { result ≡ cond (leb long_name code) true
            (cond (is_declared code (table role (remembered self.now))) true
            (leb (room role) (length (table role (remembered self.now))))) }
    {
        LONG_NAME <= code
            || self.is_declared(role, code)
            || most(role) as usize <= self.declared(role).len()
    }

    // Declares the name at `p`.
    pub fn declare(&mut self, role: Role, p: Place)
        requires { Inside (length self.old.text.now) p }
        ensures { Acts (declare role p) self.old self.new }
    {
        let code = name_code(self.letters(p));
        if self.misnamed(role, code) {
            self.blame(p);
            return;
        }
        match role {
            Role::Event => {
                self.names[self.memory.events as usize] = code;
                self.memory.events += 1;
            }
            Role::Note => {
                self.names[(limits::EVENT_LIMIT + self.memory.notes) as usize] = code;
                self.memory.notes += 1;
            }
        }
    }
}
