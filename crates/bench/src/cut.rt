// A line that a chunk's end cuts.
ghost use Rattle.std.specs.Prelude.{◌≡◌, ◌↔◌, [], IsTrue};
ghost use Rattle.bench.specs.Kept.{held_with};

use std::marker::Model;

// One byte more than a log line has digits.
const KEPT: usize = 35;

// What is held of a line: its first bytes. No type with `Output` and the stack of crate rule, which are arrays with a length too:
// each does something else where it is full.
#[derive(Drop)]
pub struct Cut {
    bytes: [u8; KEPT],
    held: usize,
}

impl Model for Cut {
    ghost use Rattle.std.specs.Prelude.{ℕ, ◌≤◌, List, take};
    ghost use Rattle.bench.specs.Kept.{kept_limit};

    ghost Value = { List ℕ };

    ghost view = { λ c. take c.held c.bytes };

    ghost invariant = { λ c. c.held ≤ kept_limit };
}

impl Cut {
    pub fn new() -> Self
        ensures { result ≡ [] }
    {
        Cut {
            bytes: [0; KEPT],
            held: 0,
        }
    }

    pub fn is_empty(&self) -> bool
        ensures { IsTrue result ↔ (self.now ≡ []) }
    {
        self.held == 0
    }

    pub fn bytes(&self) -> &[u8]
        ensures { result.now ≡ self.now }
    {
        &self.bytes[..self.held]
    }

    // Puts as much of a part as there is room for behind the bytes that are held.
    pub fn keep(&mut self, part: &[u8])
        ensures { self.new ≡ held_with self.old part.now }
    {
        let end = self.held + part.len().min(KEPT - self.held);
        self.bytes[self.held..end].copy_from_slice(&part[..end - self.held]);
        self.held = end;
    }

    pub fn clear(&mut self)
        ensures { self.new ≡ [] }
    {
        self.held = 0;
    }
}
