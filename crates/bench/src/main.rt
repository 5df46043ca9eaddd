// The bench program: the rule from the file rule.loc, the log from standard input; reports, and at the end the totals, as
// hexadecimal lines on standard output.
#![tactic(auto)]

mod chunks; // chunks.rt: the log, read chunk by chunk
mod cut; // cut.rt: a line that a chunk's end cuts
mod hex; // hex.rt: hexadecimal lines
mod output; // output.rt: what waits to be printed
mod run; // run.rt: one line, and the pulls after it

ghost use Rattle.std.specs.Prelude.{◌≡◌, ◌≤◌, length, take};
ghost use Rattle.checker.specs.Open.{open_def, open_outcome};
ghost use Rattle.checker.specs.declared.Profile.TheVariants.{Desk};
ghost use Rattle.bench.specs.Output.{bench_width};

use checker::{Opened, Profile, Refusal};
use chunks::Log;
use rule::FRAME_BYTES;
use std::fs::File;
use std::io::{Print, Read, Stdin, Stdout};

// The document's W for this program.
const WIDTH: u32 = 64;

// The line of a refused rule. A write that fails is passed over.
fn say_refused(stdout: Stdout, why: Refusal) {
    let _ = stdout.write_all(&hex::refused_line(why));
}

// A checker is opened at the desk, with the document's W.
fn open_rule(frames: &[u8], window: &mut [i32]) -> Opened
    ensures { open_outcome result window.new
        ≡ open_def Desk frames.now bench_width window.old }
{
    checker::open(Profile::Desk, frames, WIDTH, window)
}

// A rule's frames are opened and run, with the window and the buffer for what is to be printed.
fn run_frames(stdin: Stdin, stdout: Stdout, frames: &[u8]) -> Result<(), Refusal> {
    let mut window = [0i32; 2048];
    let mut waiting = [0u8; 65536];
    let opened = open_rule(frames, &mut window);
    opened.answer?;
    let state = opened.state;
    let fields = checker::fields_of(state);
    Log::begin(stdout, &mut waiting, &state.frames, fields, &window).all(stdin);
    Ok(())
}

// A rule's text is read, opened and run; of a refused one no log is read.
fn run_text(stdin: Stdin, stdout: Stdout, text: &[u8]) -> Result<(), Refusal> {
    let mut frames = [0u8; 512];
    let count = rule::read(text, &mut frames)?;
    let n = count as usize * FRAME_BYTES;
    run_frames(stdin, stdout, &frames[..n])
}

// Whether a file has been read to its end. A read that fails, or that still gives a byte, tells that it hasn't.
fn at_end(file: &mut File) -> bool {
    let mut more = [0u8; 1];
    matches!(file.read(&mut more), Ok(0))
}

// Reads until the text is full, the file ends or a read fails, and answers how many bytes were read. A `for` would be no plainer:
// each read says how many bytes it gave.
fn read_full(file: &mut File, text: &mut [u8]) -> usize
    ensures { (result ≤ length text.new) × (result ≡ length (take result text.new)) }
{
    let mut done = 0;
    while done < text.len() {
        match file.read(&mut text[done..]) {
            Ok(n) if n > 0 => done += n,
            _ => break,
        }
    }
    done
}

// Reads the rule's file as far as there is room, and answers how many bytes were read. A file that can't be read counts as an
// empty text, even where reading fails midway.
fn read_rule(rt: HostRuntime, text: &mut [u8]) -> usize
    ensures { (result ≤ length text.new) × (result ≡ length (take result text.new)) }
{
    let Ok(mut file) = File::open(&rt, "rule.loc") else {
        return 0;
    };
    let n = read_full(&mut file, text);
    let whole = n == text.len() || at_end(&mut file);
    if whole { n } else { 0 }
}

// The rule from its file, and the whole run.
fn run_rule(rt: HostRuntime, text: &mut [u8]) {
    let n = read_rule(rt, text);
    if let Err(why) = run_text(rt.stdin(), rt.stdout(), &text[..n]) {
        say_refused(rt.stdout(), why);
    }
}

// One byte more than a rule's text may have tells a text that is too long.
fn main(rt: HostRuntime) {
    let mut text = [0u8; 1025];
    run_rule(rt, &mut text);
}
