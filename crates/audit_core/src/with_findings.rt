//! The audit of a case that also answers its findings.

ghost use Rattle.std.specs.Prelude.{◌≡◌, None, IfOk, IfErr, OnOk};
ghost use Rattle.audit_core.specs.Headline.{YesMeansHeadline};
ghost use Rattle.audit_core.specs.Refusals.{IsRefusal, refusal_of};
ghost use Rattle.audit_core.specs.Report.{IsReport};

use crate::auditing::{find_all, refused};
use crate::error::AuditError;
use crate::gate::Gate;
use crate::judging::{judge_lent, judge_lent_unordered};
use case_book::{Case, Findings};
use case_report::Report;
use merge_order::Order;
use std::alloc::Global;
use std::sync::Wait;
use std::thread::Threads;

/// Audits a case, as [`audit`](crate::audit) does, and answers beside the report what was found of each log and of each link.
///
/// # Errors
///
/// Those of [`audit`](crate::audit).
pub fn audit_with_findings<R: Threads + Wait + Sync, G: Gate + Sync>(
    rt: &R,
    alloc: Global,
    case: Case,
    order: Option<Order>,
    workers: u32,
    gate: &G,
) -> Result<(Report, Findings), AuditError>
    // When it is refused, and why.
    ensures err { IfErr result (IsRefusal case workers) }
    // An audited case isn't refused.
    ensures accepted { OnOk result (refusal_of case workers ≡ None) }
    // What it answers.
    ensures report { IfOk result (λ told. IsReport case order told.0) }
    // What a yes means.
    ensures headline { IfOk result (λ told. YesMeansHeadline case.logs told.0) }
    // Whose findings they are.
    ensures findings { IfOk result (λ told. told.1.case ≡ case) }
{
    if let Some(error) = refused(&case, workers) {
        return Err(error);
    }
    let findings = find_all(rt, alloc, case, workers, gate)?;
    let report = match order {
        Some(order) => judge_lent(alloc, &findings, &order)?,
        None => judge_lent_unordered(alloc, &findings)?,
    };
    Ok((report, findings))
}
