// The words of the window, the document's term. Only here an occurrence number becomes an index, and a word is stored with its sum.
ghost use Rattle.std.specs.Prelude.{◌≡◌, ◌<◌, ◌≤◌, slice_set};
ghost use Rattle.rule.specs.Limits.{event_limit, note_limit};
ghost use Rattle.checker.specs.Limits.{width_limit};
ghost use Rattle.checker.specs.Ring.{notes_of, word_at, stored, kept};
ghost use Rattle.checker.specs.InWindow.{InWindow, Summed};

use log_lines::Notes;
use verdict::Occurrence;

// A slot has a word for each of 4 notes.
const NOTES: usize = 4;

// The word of a note of an occurrence. W is at most 256, so 16 bits hold the place in the ring, and the event's first place. Takes
// the numbers apart, and no slot: this step's promise keeps its text (document 02, point 4).
pub fn word(width: u32, event: u8, k: Occurrence, note: u8) -> usize
    requires { InWindow width event note }
    ensures { result ≡ word_at width event k.0 note }
{
    let ring_place = (k.0 % width) as u16;
    let row = u16::from(event) * width as u16;
    usize::from(row + ring_place) * NOTES + usize::from(note)
}

// The slot of an occurrence of an event in a window of width W: four words, one for each note. The window and its sum stay beside
// it: a struct of both would break `Summed` between a word's write and the sum's, and the check asks for it at each write.
#[derive(Clone, Copy)]
pub struct Slot {
    pub width: u32,
    pub event: u8,
    pub k: Occurrence,
    ghost some: { 1 ≤ width },
    ghost most: { width ≤ width_limit },
    ghost event_in: { event < event_limit },
}

impl Slot {
    // Stores a note, and gives the window's sum then: the old word taken off, the new one added.
    fn put(self, window: &mut [i32], sum: u32, note: u8, z: i32) -> u32
        requires { (note < note_limit) × Summed window.old self.width sum }
        ensures { (window.new ≡ slice_set window.old (word_at self.width self.event self.k.0 note) z)
            × Summed window.new self.width result }
    {
        let at = word(self.width, self.event, self.k, note);
        let old = window[at];
        window[at] = z;
        sum.wrapping_sub(old.cast_unsigned())
            .wrapping_add(z.cast_unsigned())
    }

    // Stores all four notes, and gives the window's sum then.
    #[tactic(auto, unfolding(crate::specs::Ring::stored))]
    fn store(self, window: &mut [i32], sum: u32, notes: Notes) -> u32
        requires { Summed window.old self.width sum }
        ensures { (window.new ≡ stored window.old self.width self.event self.k.0 (notes_of notes))
            × Summed window.new self.width result }
    {
        let sum_0 = self.put(window, sum, 0, notes.0);
        let sum_1 = self.put(window, sum_0, 1, notes.1);
        let sum_2 = self.put(window, sum_1, 2, notes.2);
        self.put(window, sum_2, 3, notes.3)
    }

    // An occurrence from base on is stored; one below base is not. Gives the window's sum then.
    #[tactic(auto, unfolding(crate::specs::Ring::kept))]
    pub fn keep(self, window: &mut [i32], sum: u32, base: u32, notes: Notes) -> u32
        requires { Summed window.old self.width sum }
        ensures { (window.new ≡ kept window.old self.width self.event base self.k.0 (notes_of notes))
            × Summed window.new self.width result }
    {
        if base <= self.k.0 {
            self.store(window, sum, notes)
        } else {
            sum
        }
    }
}
