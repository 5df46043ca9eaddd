// Viewing: 14, or the part of a report that machine hands get. View and machine hands are the document's terms.
ghost use Rattle.std.specs.Prelude.{◌≡◌, IfOk};
ghost use Rattle.checker.specs.View.{view_def, view_told};

use crate::{Refusal, limits};

// The bytes of a view: the instance has 4, the verdict 1.
const VIEW_BYTES: usize = 5;

// The view of a report buffer, a part of the buffer itself, for every buffer; its bytes are not looked at.
pub fn view(report: &[u8]) -> Result<&[u8], Refusal>
    ensures told { view_told result ≡ view_def report.now }
    ensures part { IfOk result (λ view. view.ref_ptr ≡ report.entry.ref_ptr) }
{
    if report.len() < limits::REPORT_LEAST {
        return Err(Refusal::Report);
    }
    Ok(&report[..VIEW_BYTES])
}
