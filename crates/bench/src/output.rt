// What is printed waits in a buffer, which is written out when it is nearly full.
ghost use Rattle.std.specs.Prelude.{◌≡◌, ◌≤◌, [], ◌++◌, length};
ghost use Rattle.checker.specs.Limits.{report_least};
ghost use Rattle.bench.specs.Print.{hex_line};
ghost use Rattle.bench.specs.Carried.{roomy, Ends};

use crate::hex;
use std::io::{Print, Stdout};
use std::marker::Model;

// With so many bytes waiting there is room for every line.
const ROOMY: usize = 65200;

// What waits: the first bytes of a buffer, which is lent, since a struct that holds it is copied with it. No type with `Cut`, as
// there.
#[derive(Drop)]
pub struct Output<'a> {
    stdout: Stdout,
    bytes: &'a mut [u8; 65536],
    full: usize,
}

impl<'a> Model for Output<'a> {
    ghost use Rattle.std.specs.Prelude.{ℕ, ◌≡◌, ◌≤◌, List, take, length};
    ghost use Rattle.bench.specs.Carried.{out_bytes};

    ghost Value = { List ℕ };

    ghost view = { λ o. take o.full o.bytes.now };

    ghost invariant = { λ o. (o.full ≤ out_bytes) × (length o.bytes.now ≡ out_bytes) };
}

impl<'a> Output<'a> {
    pub fn new(stdout: Stdout, bytes: &'a mut [u8; 65536]) -> Self
        ensures { result ≡ [] }
    {
        Output {
            stdout,
            bytes,
            full: 0,
        }
    }

    // Writes out what waits. A write that fails is passed over. That it is written is not proved: no contract can say it.
    pub fn flush(&mut self)
        ensures { self.new ≡ [] }
    {
        let _ = self.stdout.write_all(&self.bytes[..self.full]);
        self.full = 0;
    }

    // Writes out what waits where a line may lack room.
    fn make_room(&mut self)
        ensures room { length self.new ≤ roomy }
        ensures end { Ends self.new self.old }
    {
        if self.full > ROOMY {
            self.flush();
        }
    }

    // Bytes as a line, no longer than a report's. It stands in each of its callers: called, it takes six times the instructions for
    // a report.
    #[inline(always)]
    pub fn put_line(&mut self, bytes: &[u8])
        requires { length bytes.now ≤ report_least }
        ensures { Ends self.new (self.old ++ hex_line bytes.now) }
    {
        self.make_room();
        let at = self.full;
        self.full = hex::put_line(self.bytes, at, bytes);
    }
}
