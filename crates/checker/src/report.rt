// The report of a false verdict. Report is the document's term.
ghost use Rattle.std.specs.Prelude.{◌≡◌, ◌+◌, ◌≤◌, cond, length, if◌then◌else◌, ◌==◌, nat_eq};
ghost use Rattle.std.proofs.lemmas.List.Edits.{sets};
ghost use Rattle.rule.specs.Frames.{frame_count};
ghost use Rattle.rule.specs.References.{reference_byte, reference_count};
ghost use Rattle.checker.specs.Report.{written};
ghost use Rattle.checker.specs.Sights.{Fillable, header_of, entry_of, report_to};

use rule::{FRAME_BYTES, kinds};
use verdict::Instance;

// The fifth byte, for false.
const FALSE: u8 = 0;

// The bytes before the first reference.
const HEADER: usize = 6;

// The bytes of a reference.
const ENTRY: usize = 5;

// p, 00 for false, and how many references there are.
fn put_header(report: &mut [u8], p: Instance, count: u8)
    requires { 6 ≤ length report.old }
    ensures { report.new ≡ sets report.old 0 (header_of p.0 count) }
{
    report[..4].copy_from_slice(&p.0.to_be_bytes());
    report[4] = FALSE;
    report[5] = count;
}

// A reference's mark and value.
fn put_entry(report: &mut [u8], at: usize, mark: u8, note: i32)
    requires { at + 5 ≤ length report.old }
    ensures { report.new ≡ sets report.old at (entry_of mark note) }
{
    report[at] = mark;
    report[at + 1..at + ENTRY].copy_from_slice(&note.to_be_bytes());
}

// One frame more: a reference's entry, and where the next goes.
fn put_frame(report: &mut [u8], at: usize, kind: u8, mark: u8, note: i32) -> usize
    requires { kind ≡ reference_byte → at + 5 ≤ length report.old }
    ensures { (report.new ≡ cond (kind == reference_byte) (sets report.old at (entry_of mark note))
        report.old) × (result ≡ (if nat_eq kind reference_byte then at + 5 else at)) }
{
    if kind == kinds::REFERENCE_BYTE {
        put_entry(report, at, mark, note);
        at + ENTRY
    } else {
        at
    }
}

// The report of instance p, by the marks and notes of accepted frames.
pub fn fill(report: &mut [u8], frames: &[u8], p: Instance, marks: &[u8], notes: &[i32])
    requires { Fillable frames.now (length report.old) marks.now notes.now }
    ensures { report.new ≡ written
        (report_to frames.now marks.now notes.now
        (header_of p.0 (reference_count frames.now)) (frame_count frames.now)) report.old }
{
    let count = rule::reference_count(frames);
    put_header(report, p, count as u8);
    let mut at = HEADER;
    for k in 0..frames.len() / FRAME_BYTES {
        at = put_frame(report, at, frames[k * FRAME_BYTES], marks[k], notes[k]);
    }
}
