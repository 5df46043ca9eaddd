// A checker's run: a line is fed, and verdicts are pulled until waiting; reports wait to be printed.
ghost use Rattle.std.specs.Prelude.{◌≡◌, length};
ghost use Rattle.checker.specs.Limits.{report_least};
ghost use Rattle.checker.specs.Answer.{feed_told};
ghost use Rattle.checker.specs.Ready.{Ready};
ghost use Rattle.bench.specs.Print.{report_part};
ghost use Rattle.bench.specs.Progress.{pull_of, is_verdict, pulled_once, pulls, pull_limit, counted_by, fed_line, after_line};
ghost use Rattle.bench.specs.Output.{with_totals, begun};
ghost use Rattle.bench.specs.Carried.{opened_with, Ends, After};

use crate::hex;
use crate::output::Output;
use checker::{Fields, REPORT_LEAST, Refusal, Taken};
use std::io::Stdout;
use std::marker::Model;
use verdict::Verdict;

// More pulls than a checker can give verdicts.
const PULLS: u32 = 1010001;

// How many lines were accepted, ignored and refused.
#[derive(Clone, Copy, Default)]
pub struct Counts {
    pub accepted: u32,
    pub ignored: u32,
    pub refused: u32,
}

impl Counts {
    // One line more, by its answer.
    fn count(&mut self, answer: Result<Taken, Refusal>)
        ensures { self.new ≡ counted_by (feed_told answer) self.old }
    {
        match answer {
            Ok(Taken::Accepted) => self.accepted = self.accepted.wrapping_add(1),
            Ok(Taken::Ignored) => self.ignored = self.ignored.wrapping_add(1),
            Err(_) => self.refused = self.refused.wrapping_add(1),
        }
    }
}

// How far the program has come: the frames, the other fields and the window of a checker that 12, 13 and 27 let through, the counts
// and what waits to be printed.
#[derive(Drop)]
pub struct Run<'a> {
    frames: [u8; 512],
    fields: Fields,
    window: [i32; 2048],
    counts: Counts,
    out: Output<'a>,
}

impl<'a> Model for Run<'a> {
    ghost use Rattle.bench.specs.Progress.{Progress};
    ghost use Rattle.bench.specs.Carried.{progress_of, LetIn};

    ghost Value = { Progress };

    ghost view = { λ r. progress_of r.frames r.fields r.window r.counts r.out };

    ghost invariant = { λ r. LetIn (progress_of r.frames r.fields r.window r.counts r.out) };
}

// The report in a buffer: six bytes, and five for each reference.
fn report_part(report: &[u8]) -> &[u8]
    requires { length report.now ≡ report_least }
    ensures { result.now ≡ report_part report.now }
{
    let n = 6 + 5 * usize::from(report[5]);
    &report[..n.min(REPORT_LEAST)]
}

impl<'a> Run<'a> {
    // A checker that was opened: verdicts are pulled until waiting, before the first line.
    pub fn begin(
        stdout: Stdout,
        waiting: &'a mut [u8; 65536],
        frames: &[u8; 512],
        fields: Fields,
        window: &[i32; 2048],
    ) -> Self
        requires { Ready frames.now fields window.now }
        ensures { After (begun (opened_with frames.now fields window.now)) result }
    {
        let mut run = Run {
            frames: *frames,
            fields,
            window: *window,
            counts: Counts::default(),
            out: Output::new(stdout, waiting),
        };
        run.pull_all();
        run
    }

    // One pull; answers whether it gave a verdict. A report is printed as a line.
    fn pull(&mut self) -> bool
        ensures once { After (pulled_once self.old) self.new }
        ensures verdict { result ≡ is_verdict (pull_of self.old).answer }
    {
        let mut report = [0; REPORT_LEAST];
        let Some(verdict) = checker::pull_admitted(
            &self.frames,
            &mut self.fields,
            &self.window,
            &mut report,
        ) else {
            return false;
        };
        if verdict == Verdict::False {
            self.out.put_line(report_part(&report));
        }
        true
    }

    // Pulls until waiting.
    fn pull_all(&mut self)
        ensures { After (pulls pull_limit self.old) self.new }
    {
        for _ in 0..PULLS {
            if !self.pull() {
                break;
            }
        }
    }

    // Feeds a line and counts its answer.
    fn feed(&mut self, line: &[u8])
        ensures { self.new ≡ fed_line self.old line.now }
    {
        let answer = checker::feed_admitted(&self.frames, &mut self.fields, &mut self.window, line);
        self.counts.count(answer);
    }

    // One line of the log, without its LF.
    pub fn line(&mut self, line: &[u8])
        ensures { After (after_line self.old line.now) self.new }
    {
        self.feed(line);
        self.pull_all();
    }

    // The totals behind what waits, and all of it is written out.
    pub fn finish(&mut self) {
        self.put_totals();
        self.out.flush();
    }

    // The last line.
    fn put_totals(&mut self)
        ensures { Ends self.new.said (with_totals self.old) }
    {
        self.out
            .put_line(&hex::totals_bytes(self.fields.totals, self.counts));
    }
}
