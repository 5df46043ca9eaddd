// The log, read chunk by chunk.
ghost use Rattle.std.specs.Prelude.{◌≡◌, [], ◌++◌};
ghost use Rattle.checker.specs.Ready.{Ready};
ghost use Rattle.bench.specs.Progress.{after_line, after_bytes, at_end};
ghost use Rattle.bench.specs.Output.{begun};
ghost use Rattle.bench.specs.Carried.{opened_with, After, AfterChunked};

use crate::cut::Cut;
use crate::run::Run;
use checker::Fields;
use log_lines::walk::line_at;
use std::io::{Read, Stdin, Stdout};
use std::marker::Model;

// A run over a log, with what is held of a line whose end has not come yet.
#[derive(Drop)]
pub struct Log<'a> {
    run: Run<'a>,
    cut: Cut,
}

impl<'a> Model for Log<'a> {
    ghost use Rattle.bench.specs.Progress.{Chunked};

    ghost Value = { Chunked };

    ghost view = { λ l. record { progress = l.run; held = l.cut } };
}

impl<'a> Log<'a> {
    // Before the first line.
    pub fn begin(
        stdout: Stdout,
        waiting: &'a mut [u8; 65536],
        frames: &[u8; 512],
        fields: Fields,
        window: &[i32; 2048],
    ) -> Self
        requires { Ready frames.now fields window.now }
        ensures progress { After (begun (opened_with frames.now fields window.now)) result.progress }
        ensures held { result.held ≡ [] }
    {
        Log {
            run: Run::begin(stdout, waiting, frames, fields, window),
            cut: Cut::new(),
        }
    }

    // A line that ends in a chunk: with what is held of it, where something is.
    fn end_line(&mut self, part: &[u8])
        ensures progress { After (after_line self.old.progress (self.old.held ++ part.now)) self.new.progress }
        ensures held { self.new.held ≡ [] }
    {
        if self.cut.is_empty() {
            self.run.line(part);
            return;
        }
        self.cut.keep(part);
        self.run.line(self.cut.bytes());
        self.cut.clear();
    }

    // The lines that end in a chunk; what is left of the last is held.
    fn chunk(&mut self, s: &[u8])
        ensures { AfterChunked (after_bytes self.old s.now) self.new }
    {
        let mut at = 0;
        while let Some(line) = line_at(s, at) {
            let part = &s[line.start..line.end];
            if line.end < line.next {
                self.end_line(part);
            } else {
                self.cut.keep(part);
            }
            at = line.next;
        }
    }

    // One read, and the lines that end in it; answers whether there may be more. The end of the input and a read that fails end the
    // log. Proved safe only: no contract can say what is read.
    fn turn(&mut self, stdin: &mut Stdin) -> bool {
        let mut buf = [0; 65536];
        let n = stdin.read(&mut buf).unwrap_or(0);
        self.chunk(&buf[..n]);
        n > 0
    }

    // The log has ended: what is held is a line.
    fn end(&mut self)
        ensures { After (at_end self.old) self.new.progress }
    {
        if !self.cut.is_empty() {
            self.run.line(self.cut.bytes());
        }
    }

    // Reads the log to its end, and prints what still waits, with the totals. Proved safe only: the input need not end.
    pub fn all(&mut self, mut stdin: Stdin) {
        for _ in 0..u64::MAX {
            if !self.turn(&mut stdin) {
                break;
            }
        }
        self.end();
        self.run.finish();
    }
}
