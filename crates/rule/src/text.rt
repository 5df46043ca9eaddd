// A reader of a rule's text: its place, what it remembers, and the tokens that it takes.
ghost use Rattle.std.specs.Prelude.{◌≡◌, ◌≤◌, length};

use crate::Token;
use crate::memory::Registers;
use crate::parts::Place;
use crate::tokens::token_at;

// A token that no rule has there: where it starts.
#[derive(Clone, Copy)]
pub struct Unexpected {
    pub at: usize,
}

impl From<Token> for Unexpected {
    ghost from_gives = { λ t e. e.at ≡ t.start };

    fn from(t: Token) -> Unexpected {
        Unexpected { at: t.start }
    }
}

// A reader stands at a place of a text, where points are taken or not. It has a table of 12 numbers of names, events from 0
// on and notes from 8 on, and a buffer of 64 frames of 8 bytes: arrays beside their counts in the registers, no type of both,
// since `mem` of specs/Memory is of these three, and `read` hands the whole buffer over, zero after the last frame.
#[derive(Drop)]
pub struct Reader<'a> {
    pub text: &'a [u8],
    pub at: usize,
    pub points: bool,
    pub memory: Registers,
    pub names: [u64; 12],
    pub frames: [u8; 512],
    pub ghost within: { at ≤ length text.now },
}

impl<'a> Reader<'a> {
    ghost use Rattle.std.specs.Prelude.{◌∷◌, ◌<◌};
    ghost use Rattle.rule.specs.Token.{Mode, next};
    ghost use Rattle.rule.specs.Machine.{want};
    ghost use Rattle.rule.specs.Spelling.{letters};
    ghost use Rattle.rule.specs.ReadsPart.{Reads, ReadsPart, Inside, Stands, Taken, TakesKind, Eats, remembered};

    // The next token.
    pub fn peek(&self) -> Token
        ensures { Stands self.now result }
    {
        token_at(self.text, self.at, self.points)
    }

    // Takes the next token.
    pub fn take(&mut self) -> Token
        ensures next { Stands self.old result }
        ensures taken { Taken result (remembered self.old) self.old self.new }
    {
        let t = self.peek();
        self.at = t.end;
        t
    }

    // Takes the next token if it is of a kind: whether it was.
    pub fn eat(&mut self, kind: u8) -> bool
        ensures { Eats kind self.old self.new result }
    {
        let t = self.peek();
        if t.kind != kind {
            return false;
        }
        self.at = t.end;
        true
    }

    // Takes a token of one kind, and hands it on.
    pub fn take_kind(&mut self, kind: u8) -> Result<Token, Unexpected>
        ensures { TakesKind kind self.old self.new result }
    {
        let t = self.take();
        if t.kind != kind {
            return Err(Unexpected::from(t));
        }
        Ok(t)
    }

    // Takes a token of one kind, at each mode whose tokens are those with points or without.
    pub fn expect(&mut self, kind: u8) -> Result<(), Unexpected>
        requires { 0 < kind }
        ensures { (md : Mode) → Reads md self.old.points
            → ReadsPart md (next md kind) 1 (λ s. want kind ∷ s) self.old self.new result }
    {
        self.take_kind(kind)?;
        Ok(())
    }

    // What stands at `p`. A place has no letters of its own, which `Inside` would then not have to say: the symbols of
    // specs/Machine (`ref_event n`) hold places by start and end.
    pub fn letters(&self, p: Place) -> &[u8]
        requires { Inside (length self.now.text.now) p }
        ensures { result.now ≡ letters self.now.text.now p }
    {
        &self.text[p.start..p.end]
    }
}
