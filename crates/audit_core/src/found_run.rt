//! The run of findings that are good.

ghost use Rattle.std.specs.Prelude.{◌≡◌, None, IfOk, IfSome};
ghost use Rattle.merge_order.specs.Fits.{IsFitting};
ghost use Rattle.audit_core.specs.Explained.{AreExplained, HasNoRun};
ghost use Rattle.audit_core.specs.Report.{AreGoodFindings};

use crate::judging::line_of;
use call_trace::name_run;
use case_book::Findings;
use merge_order::{Order, make_order};
use run_model::Run;
use std::alloc::{AllocError, Global};

/// The run of good findings, by an order that fits.
fn run_by(alloc: Global, findings: &Findings, order: &Order) -> Result<Run, AllocError>
    requires good { AreGoodFindings findings.now }
    requires fits { IsFitting findings.now.case.logs order.now }
    ensures { IfOk result (AreExplained findings.now.case.logs) }
{
    name_run(alloc, findings.vats(), order)
}

/// The run of the findings of a case, by the order that takes the smallest vat number that may come at each step: for people
/// who want to see how a call went. None where a log or a link isn't good, or no order fits.
///
/// # Errors
///
/// Out of memory.
pub fn run_of_findings(alloc: Global, findings: &Findings) -> Result<Option<Run>, AllocError>
    // It explains the logs, by an order that fits.
    ensures run { IfOk result (λ made. IfSome made (AreExplained findings.now.case.logs)) }
    // There is none only where a log or a link isn't good, or no order fits.
    ensures none { IfOk result (λ made. made ≡ None → HasNoRun findings.now.case) }
{
    let case = findings.case();
    if let Some(_) = line_of(findings) {
        return Ok(None);
    }
    match make_order(alloc, case.logs())? {
        Some(order) => Ok(Some(run_by(alloc, findings, &order)?)),
        None => Ok(None),
    }
}
