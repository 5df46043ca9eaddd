// The reader of a whole rule.
ghost use Rattle.std.specs.Prelude.{◌≡◌, false, [], ◌∷◌, ◌+◌, ◌≤◌, length};
ghost use Rattle.rule.specs.Limits.{buffer_bytes};
ghost use Rattle.rule.specs.ReadLimits.{text_limit};
ghost use Rattle.rule.specs.ReadTold.{read_told};
ghost use Rattle.rule.specs.Token.{declares, body};
ghost use Rattle.rule.specs.Machine.{start, clause, condition};
ghost use Rattle.rule.specs.Memory.{spot};
ghost use Rattle.rule.specs.ReadsPart.{remembered, reading};
ghost use Rattle.rule.specs.Reading.{concluded, read_of, reader_answer};

use crate::memory::Registers;
use crate::parts::Role;
use crate::text::{Reader, Unexpected};
use crate::tokens::{END_KIND, EVENTS_KIND, NOTES_KIND, clause_at};
use crate::{Refusal, check, limits};

impl<'a> Reader<'a> {
    // The end of the text, after the last part.
    fn ended(&mut self) -> Result<(), Unexpected>
        ensures { reading (body self.old.points) self.old [] ≡ reader_answer self.new result }
    {
        let t = self.peek();
        if t.kind != END_KIND {
            return Err(Unexpected::from(t));
        }
        Ok(())
    }

    // cond, and the end of the text; after the clause points are taken.
    fn body(&mut self) -> Result<(), Unexpected>
        ensures { reading (body self.old.points) self.old (condition 0 []) ≡ reader_answer self.new result }
    {
        self.condition(0)?;
        self.ended()
    }

    // ["scale" number ";"] cond, and the end of the text.
    fn scaled(&mut self) -> Result<(), Unexpected>
        requires { self.old.points ≡ false }
        ensures { reading (declares 0) self.old (clause ∷ condition 0 []) ≡ reader_answer self.new result }
    {
        let points = clause_at(self.text, self.at);
        self.scale_clause(points)?;
        self.points = points;
        self.body()
    }

    // rule: "events" name {name} ";" "notes" name {name} ";" ["scale" number ";"] cond
    fn whole(&mut self) -> Result<(), Unexpected>
        requires { self.old.points ≡ false }
        ensures { reading (declares 2) self.old start ≡ reader_answer self.new result }
    {
        self.declarations(EVENTS_KIND, Role::Event)?;
        self.declarations(NOTES_KIND, Role::Note)?;
        self.scaled()
    }
}

// Refusals 4, 5, 18 and 6 to 8 of what was read; else the frames are handed over.
fn conclude(reader: &Reader, frames: &mut [u8]) -> Result<u32, Refusal>
    requires { (length frames.old ≡ buffer_bytes) × (spot reader.now.memory.name ≤ text_limit + 1)
        × (spot reader.now.memory.number ≤ text_limit + 1) × (spot reader.now.memory.decimals ≤ text_limit + 1) }
    ensures { (read_told result ≡ (concluded frames.old (remembered reader.now)).0)
        × (frames.new ≡ (concluded frames.old (remembered reader.now)).1) }
{
    let m = reader.memory;
    if let Some(at) = m.name {
        return Err(Refusal::Name(at as u32));
    }
    if let Some(at) = m.number {
        return Err(Refusal::Number(at as u32));
    }
    if let Some(at) = m.decimals {
        return Err(Refusal::Decimals(at as u32));
    }
    if m.deep || limits::FRAME_LIMIT < m.count {
        return Err(Refusal::TooLarge);
    }
    check(&reader.frames[..m.count * limits::FRAME_BYTES])?;
    frames.copy_from_slice(&reader.frames);
    Ok(m.count as u32)
}

// Reads a rule's text into frames, for every text and every buffer: refusals 1 to 5, 18 and 6 to 8 in this order. A
// refusal leaves the buffer as it was; else it holds the frames, and zero after the last.
pub fn read(text: &[u8], frames: &mut [u8]) -> Result<u32, Refusal>
    ensures { (read_told result ≡ (read_of text.now frames.old).0)
        × (frames.new ≡ (read_of text.now frames.old).1) }
{
    if frames.len() != limits::BUFFER_BYTES {
        return Err(Refusal::Buffer);
    }
    if text.is_empty() || limits::TEXT_LIMIT < text.len() {
        return Err(Refusal::TextLength);
    }
    let mut reader = Reader {
        text,
        at: 0,
        points: false,
        memory: Registers::default(),
        names: [0; 12],
        frames: [0; 512],
    };
    if let Err(token) = reader.whole() {
        return Err(Refusal::Token(token.at as u32));
    }
    conclude(&reader, frames)
}
