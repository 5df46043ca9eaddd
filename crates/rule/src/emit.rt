// Frames go out to a buffer of 64 frames of 8 bytes.
ghost use Rattle.std.specs.Prelude.{◌≡◌, length};
ghost use Rattle.rule.specs.Draft.{head, lit, ref, plain};
ghost use Rattle.rule.specs.Machine.{out, sized};
ghost use Rattle.rule.specs.Memory.{code_at, value_at, decimals_at, factor_of, offset_of, with_frame, acts};
ghost use Rattle.rule.specs.ReadsPart.{Inside, InsideMultiple, InsideShift, Acts, Recalls, remembered};

use crate::memory::RawFrame;
use crate::names::name_code;
use crate::numerals::{decimals, number_value};
use crate::parts::{Limit, Multiple, Place, Role, Shift, Sign};
use crate::text::Reader;
use crate::{kinds, limits};

impl<'a> Reader<'a> {
    // Puts a frame at its place, if there is room, and counts it.
    fn emit(&mut self, f: RawFrame)
        ensures { Recalls (with_frame f (remembered self.old)) self.old self.new }
    {
        let n = self.memory.count;
        if limits::FRAME_LIMIT <= n {
            self.memory.count = limits::FRAME_LIMIT + 1;
            return;
        }
        let p = n * limits::FRAME_BYTES;
        self.frames[p] = f.kind;
        self.frames[p + 1] = f.event;
        self.frames[p + 2] = f.note;
        self.frames[p + 3] = f.factor;
        self.frames[p + 4..p + 8].copy_from_slice(&f.word.to_be_bytes());
        self.memory.count = n + 1;
    }

    // A frame that uses its kind alone.
    pub fn emit_kind(&mut self, kind: u8)
        ensures { Acts (out (plain kind)) self.old self.new }
    {
        self.emit(RawFrame {
            kind,
            ..RawFrame::default()
        });
    }

    // The frame of the clause whose number is at `p`, after its limit.
    pub fn emit_head(&mut self, p: Place)
        requires { Inside (length self.old.text.now) p }
        ensures { Recalls (acts self.old.text.now (out (head p))
            (acts self.old.text.now (sized Limit.OfClause p) (remembered self.old))) self.old self.new }
    {
        self.sized(Limit::OfClause, p);
        let k = (number_value(self.letters(p)) % 256) as u8;
        self.emit(RawFrame {
            kind: kinds::SCALE_BYTE,
            event: k,
            ..RawFrame::default()
        });
    }

    // The frame of the literal at `p`, after its limits.
    pub fn emit_literal(&mut self, p: Place)
        requires { Inside (length self.old.text.now) p }
        ensures { Recalls (acts self.old.text.now (out (lit p))
            (acts self.old.text.now (sized Limit.OfLiteral p) (remembered self.old))) self.old self.new }
    {
        self.sized(Limit::OfLiteral, p);
        let word = number_value(self.letters(p));
        let d = (decimals(self.letters(p)) % 256) as u8;
        self.emit(RawFrame {
            kind: kinds::LITERAL_BYTE,
            event: d,
            word,
            ..RawFrame::default()
        });
    }

    // The factor of i.
    fn factor_of(&self, f: Multiple) -> u8
        requires { InsideMultiple (length self.now.text.now) f }
        ensures { result ≡ factor_of (code_at self.now.text.now) (value_at self.now.text.now)
            (decimals_at self.now.text.now) f }
    {
        match f {
            Multiple::Once => 1,
            Multiple::Times(p) => (number_value(self.letters(p)) % 256) as u8,
        }
    }

    // The offset, as a word of 32 bits.
    fn offset_of(&self, o: Shift) -> u32
        requires { InsideShift (length self.now.text.now) o }
        ensures { result ≡ offset_of (code_at self.now.text.now) (value_at self.now.text.now)
            (decimals_at self.now.text.now) o }
    {
        match o {
            Shift::Unshifted => 0,
            Shift::By(g, p) => {
                let v = number_value(self.letters(p));
                match g {
                    Sign::Plus => v,
                    Sign::Minus => v.wrapping_neg(),
                }
            }
        }
    }

    // The frame of a reference: the note at `n` of the event at `e`.
    pub fn emit_reference(&mut self, n: Place, e: Place, f: Multiple, o: Shift)
        requires { Inside (length self.old.text.now) n × Inside (length self.old.text.now) e
            × InsideMultiple (length self.old.text.now) f × InsideShift (length self.old.text.now) o }
        ensures { Acts (out (ref n e f o)) self.old self.new }
    {
        let event = self.lookup(Role::Event, name_code(self.letters(e)));
        let note = self.lookup(Role::Note, name_code(self.letters(n)));
        self.emit(RawFrame {
            kind: kinds::REFERENCE_BYTE,
            event,
            note,
            factor: self.factor_of(f),
            word: self.offset_of(o),
        });
    }
}
