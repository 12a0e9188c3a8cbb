//! The report of findings.

ghost use Rattle.std.specs.Prelude.{◌≡◌, ◌≤◌, ◌-◌, List, ℕ, Option, Some, None, IfOk, MatchOption, length};
ghost use Rattle.merge_order.specs.Fits.{IsFitting};
ghost use Rattle.audit_core.specs.Glue.{case_record_limit};
ghost use Rattle.audit_core.specs.Headline.{YesMeansHeadline};
ghost use Rattle.audit_core.specs.Report.{IsReport, IsOrderFor, records_delivery, count_all, records_in, AreGoodFindings};
ghost use Rattle.vat_log.specs.Passages.{sends, receives};

use crate::counts::{count_delivered, count_records, count_under_way};
use crate::first_bad::{link_line, vat_line};
use call_trace::{name_run, order_fault};
use case_book::Findings;
use case_report::{Breach, Report};
use merge_order::{Order, OrderFinding, check_order, make_order};
use run_model::Run;
use std::alloc::{AllocError, Global};

/// The line of the first vat, or else of the first link, that isn't good. It is the same whatever the order.
pub(crate) fn line_of(findings: &Findings) -> Option<Report>
    ensures { MatchOption result (AreGoodFindings findings.now)
        (λ answer. (given : Option (List ℕ)) → IsReport findings.now.case given answer) }
{
    match vat_line(findings.vats()) {
        Some(line) => Some(line),
        None => link_line(findings.links()),
    }
}

/// The yes to good findings with so many records, and with their run.
fn yes(findings: &Findings, records: u64, run: Run) -> Report
    requires good { AreGoodFindings findings.now }
    requires all { records ≡ records_in findings.now.case.logs }
    requires few { records ≤ case_record_limit }
    ensures { result ≡ Report.Yes (length findings.now.case.logs) (records_in findings.now.case.logs)
        (count_all records_delivery findings.now.case.logs)
        (count_all sends findings.now.case.logs - count_all receives findings.now.case.logs) run }
{
    Report::Yes {
        vats: findings.case().logs().len() as u64,
        records,
        delivered: count_delivered(findings.vats()),
        under_way: count_under_way(findings.links()),
        run,
    }
}

/// The report of good findings and an order that fits.
fn by_order(alloc: Global, findings: &Findings, order: &Order) -> Result<Report, AllocError>
    requires good { AreGoodFindings findings.now }
    requires fits { IsFitting findings.now.case.logs order.now }
    ensures { IfOk result
        (λ answer. (given : Option (List ℕ)) → IsOrderFor findings.now.case.logs given order.now
        → IsReport findings.now.case given answer) }
{
    let records = count_records(findings.case().logs());
    let run = name_run(alloc, findings.vats(), order)?;
    match order_fault(alloc, &run)? {
        Some((vat, at)) => Ok(Report::Vat {
            vat,
            at: at as u64,
            rule: Breach::Order,
        }),
        None => Ok(yes(findings, records, run)),
    }
}

/// The report of findings that are lent, and of an order: [`judge`] answers just that.
pub(crate) fn judge_lent(
    alloc: Global,
    findings: &Findings,
    order: &Order,
) -> Result<Report, AllocError>
    ensures report { IfOk result (IsReport findings.now.case (Some order.now)) }
    // What a yes means.
    ensures headline { IfOk result (YesMeansHeadline findings.now.case.logs) }
{
    if let Some(line) = line_of(findings) {
        return Ok(line);
    }
    match check_order(alloc, findings.case().logs(), order)? {
        OrderFinding::Fails(step) => Ok(Report::OrderStep(step)),
        OrderFinding::Fits => by_order(alloc, findings, order),
    }
}

/// The report of findings that are lent, where no order is given: [`judge_unordered`] answers just that.
pub(crate) fn judge_lent_unordered(alloc: Global, findings: &Findings) -> Result<Report, AllocError>
    ensures report { IfOk result (IsReport findings.now.case None) }
    // What a yes means.
    ensures headline { IfOk result (YesMeansHeadline findings.now.case.logs) }
{
    if let Some(line) = line_of(findings) {
        return Ok(line);
    }
    match make_order(alloc, findings.case().logs())? {
        None => Ok(Report::NoOrder),
        Some(order) => by_order(alloc, findings, &order),
    }
}

/// The report of the findings of a case, and of an order of its records: the first line that applies. Vats are tried by their
/// numbers, links by theirs, then the order, then the order of calls in the run of all vats.
///
/// # Errors
///
/// Out of memory.
pub fn judge(alloc: Global, findings: Findings, order: Order) -> Result<Report, AllocError>
    // What it answers.
    ensures report { IfOk result (IsReport findings.case (Some order)) }
    // What a yes means.
    ensures headline { IfOk result (YesMeansHeadline findings.case.logs) }
{
    judge_lent(alloc, &findings, &order)
}

/// The report of the findings of a case for which no order is given: it is judged by the order that takes the smallest vat
/// number that may come at each step.
///
/// # Errors
///
/// Out of memory.
pub fn judge_unordered(alloc: Global, findings: Findings) -> Result<Report, AllocError>
    // What it answers.
    ensures report { IfOk result (IsReport findings.case None) }
    // What a yes means.
    ensures headline { IfOk result (YesMeansHeadline findings.case.logs) }
{
    judge_lent_unordered(alloc, &findings)
}
