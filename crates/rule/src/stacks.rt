// A stack of at most 64 items, as many as an accepted rule has frames: here of magnitudes, in crate verdict of terms and of truth
// values.
ghost use Rattle.std.specs.Prelude.{◌≡◌, ◌∷◌, List, [], ◌≤◌, ◌<◌, length, reverse, take};
ghost use Rattle.rule.specs.Limits.{frame_limit};

use std::marker::Model;

/// A stack, in memory of fixed size.
#[derive(Drop)]
pub struct Stack<T: Copy> {
    cells: [T; 64],
    len: usize,
}

// Clauses see the items, the last first.
impl<T: Copy> Model for Stack<T> {
    ghost Value = { List T };

    ghost view = { λ s. reverse (take s.len s.cells) };

    ghost invariant = { λ s. s.len ≤ frame_limit };
}

impl<T: Copy> Stack<T> {
    // With no items; until they are stored the cells hold what is given.
    pub fn new(unused: T) -> Self
        ensures { result ≡ [] }
    {
        Stack {
            cells: [unused; 64],
            len: 0,
        }
    }

    pub fn push(&mut self, x: T)
        requires { length self.old < frame_limit }
        ensures { self.new ≡ x ∷ self.old }
    {
        self.cells[self.len] = x;
        self.len += 1;
    }

    pub fn pop(&mut self) -> T
        requires { 1 ≤ length self.old }
        ensures { self.old ≡ result ∷ self.new }
    {
        self.len -= 1;
        self.cells[self.len]
    }

    // The two last, in the order in which they came.
    pub fn pop_two(&mut self) -> (T, T)
        requires { 2 ≤ length self.old }
        ensures { self.old ≡ result.1 ∷ (result.0 ∷ self.new) }
    {
        let y = self.pop();
        (self.pop(), y)
    }
}
