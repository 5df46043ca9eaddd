// One reader walks a log of many lines in lent memory: `start`, then `line_here` and `moved_on` until `at_log_end`. The work is
// done by `line_at`, on a plain slice and a number.
ghost use Rattle.std.specs.Prelude.{◌≡◌, ◌≤◌, ◌==◌, length, not, take_while};
ghost use Rattle.log_lines.specs.Walk.{end_of, line_at, found_ptr, found_bytes, found_next, found_end};
ghost use Rattle.log_lines.specs.Walk.{start_of, ptr_here, line_here, moved_on, at_log_end};

// A log and a place in it. Document 01 names this form, a struct of a slice and a position with thin functions over plain ones.
#[derive(Clone, Copy)]
pub struct LogReader<'a> {
    pub log: &'a [u8],
    pub at: usize,
}

// A line in a log, from start up to, not including, end, with the place where the next starts.
#[derive(Clone, Copy, PartialEq, Eq, Debug)]
pub struct Span {
    pub start: usize,
    pub end: usize,
    pub next: usize,
}

// How many bytes stand before the first LF, or all.
fn to_lf(log: &[u8]) -> usize
    ensures { result ≡ length (take_while (λ b. not (b == 10)) log.now) }
{
    log.iter().take_while(|b| **b != b'\n').count()
}

// Where the line that starts at `at` ends: at its LF, or at the log's end.
#[tactic(auto, using(std::proofs::lemmas::List::take_rest, crate::proofs::Walking::lf_counted))]
fn line_end(log: &[u8], at: usize) -> usize
    requires { at ≤ length log.now }
    ensures ends { result ≡ end_of log.now at }
    ensures within { result ≤ length log.now }
{
    at + to_lf(&log[at..])
}

// The line that starts at a place; none at the log's end.
#[tactic(auto, unfolding(crate::specs::Walk::line_at))]
pub fn line_at(log: &[u8], at: usize) -> Option<Span>
    ensures { result ≡ line_at log.now at }
{
    if log.len() <= at {
        return None;
    }
    let end = line_end(log, at);
    Some(Span {
        start: at,
        end,
        next: (end + 1).min(log.len()),
    })
}

// The line at a place, a part of the log without its LF; at the log's end the empty part at its start.
#[tactic(auto, using(crate::proofs::Walking::end_steps))]
fn part_at<'a>(log: &'a [u8], at: usize) -> &'a [u8]
    ensures { (result.ref_ptr ≡ found_ptr log.entry.ref_ptr (line_at log.now at))
        × (result.now ≡ found_bytes log.now (line_at log.now at)) }
{
    match line_at(log, at) {
        Some(line) => &log[line.start..line.end],
        None => &log[0..0],
    }
}

// Where the next line starts; at the log's end the place itself.
fn next_at(log: &[u8], at: usize) -> usize
    ensures { result ≡ found_next at (line_at log.now at) }
{
    line_at(log, at).map_or(at, |line| line.next)
}

// Whether no line starts at a place.
#[tactic(auto, using(crate::proofs::Walking::end_steps))]
fn is_end(log: &[u8], at: usize) -> bool
    ensures { result ≡ found_end (line_at log.now at) }
{
    log.len() <= at
}

// A reader at the start of a log.
pub fn start<'a>(log: &'a [u8]) -> LogReader<'a>
    ensures { result ≡ start_of log.entry }
{
    LogReader { log, at: 0 }
}

// The line at the reader's place, a part of the log; at the log's end it is empty.
pub fn line_here<'a>(r: LogReader<'a>) -> &'a [u8]
    ensures { (result.ref_ptr ≡ ptr_here r.entry) × (result.now ≡ line_here r.entry) }
{
    part_at(r.log, r.at)
}

// The reader after that line; at the log's end it stays.
pub fn moved_on<'a>(r: LogReader<'a>) -> LogReader<'a>
    ensures { result ≡ moved_on r.entry }
{
    let at = next_at(r.log, r.at);
    LogReader { log: r.log, at }
}

// Whether the reader is at the log's end.
pub fn at_log_end<'a>(r: LogReader<'a>) -> bool
    ensures { result ≡ at_log_end r.entry }
{
    is_end(r.log, r.at)
}
