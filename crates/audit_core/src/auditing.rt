//! The audit of a case.

ghost use Rattle.std.specs.Prelude.{◌≡◌, None, IfOk, IfErr, OnOk};
ghost use Rattle.case_book.specs.Ties.{tie_fault_of};
ghost use Rattle.audit_core.specs.Headline.{YesMeansHeadline};
ghost use Rattle.audit_core.specs.Refusals.{IsRefusal, refusal_of};
ghost use Rattle.audit_core.specs.Report.{IsReport};

use crate::error::AuditError;
use crate::gate::Gate;
use crate::judging::{judge, judge_unordered};
use crate::working::work_together;
use case_book::{Book, Case, Findings, TieFault};
use case_report::Report;
use merge_order::Order;
use std::alloc::{AllocError, Global};
use std::sync::{Mutex, Wait};
use std::thread::Threads;

/// How many workers there may be.
pub const MAX_WORKERS: u32 = 64;

/// Why a case isn't audited, but for running out of memory.
pub(crate) fn refused(case: &Case, workers: u32) -> Option<AuditError>
    ensures { result ≡ refusal_of case.now workers }
{
    if workers == 0 {
        return Some(AuditError::NoWorkers);
    }
    if workers > MAX_WORKERS {
        return Some(AuditError::TooManyWorkers);
    }
    match case.tie_fault() {
        Some(TieFault::MissingLog(connection)) => Some(AuditError::MissingLog(connection)),
        Some(TieFault::SameEnds(connection)) => Some(AuditError::SameEnds(connection)),
        None => None,
    }
}

/// The book of this case: the one that came out of the lock, or a new one where that is of another case.
fn own_book(alloc: Global, case: Case, book: Book) -> Result<Book, AllocError>
    requires { tie_fault_of case ≡ None }
    ensures { IfOk result (λ own. own.case ≡ case) }
{
    if book.case().is_same(&case) {
        return Ok(book);
    }
    Book::new(alloc, case)
}

/// Does the work of each piece that is missing, and keeps what is found.
fn finish<G: Gate>(alloc: Global, mut book: Book, gate: &G) -> Result<Findings, AllocError>
    ensures { IfOk result (λ all. all.case ≡ book.case) }
{
    while let Some(piece) = book.next_missing() {
        let Some(found) = book.case().find(alloc, piece)? else {
            unreachable!()
        };
        gate.before_post(piece.number);
        book.keep(piece, found);
    }
    match book.into_findings() {
        Ok(findings) => Ok(findings),
        Err(_) => unreachable!(),
    }
}

/// The findings of all pieces of a case, by so many workers. The calling thread does what they leave undone; one worker alone
/// does all there, without a lock and without looking for the piece of each finding.
pub(crate) fn find_all<R: Threads + Wait + Sync, G: Gate + Sync>(
    rt: &R,
    alloc: Global,
    case: Case,
    workers: u32,
    gate: &G,
) -> Result<Findings, AllocError>
    requires { tie_fault_of case ≡ None }
    ensures { IfOk result (λ all. all.case ≡ case) }
{
    if workers == 1 {
        return finish(alloc, Book::new(alloc, case)?, gate);
    }
    let shared = Mutex::new(Book::new(alloc, case.copy(alloc)?)?);
    work_together(rt, alloc, &case, &shared, workers, gate);
    let book = own_book(alloc, case, shared.into_inner())?;
    finish(alloc, book, gate)
}

/// A gate at which nobody waits.
struct OpenGate;

impl Gate for OpenGate {
    fn before_post(&self, _piece: u32) {}
}

/// The findings of all pieces of a case, made on the calling thread.
///
/// # Errors
///
/// Out of memory.
pub fn find_alone(alloc: Global, case: Case) -> Result<Findings, AllocError>
    requires { tie_fault_of case ≡ None }
    ensures { IfOk result (λ all. all.case ≡ case) }
{
    finish(alloc, Book::new(alloc, case)?, &OpenGate)
}

/// Audits a case: the report of its findings, and of the order that is given, or of the one that takes the smallest vat
/// number that may come at each step. The report is the same for every number of workers, at least 1 and at most 64: clause
/// `report` says it without them, and there is one such report ([`a_case_has_one_report`](crate::a_case_has_one_report)). The
/// workers are the calling thread and as many others as can be started; each calls the gate just before it posts a finding.
/// It returns if the gate and the waits for the lock and for the workers do: no contract says that they do.
///
/// # Errors
///
/// The first that applies: `NoWorkers`; `TooManyWorkers` above 64; `MissingLog` or `SameEnds`, as the case's tie fault says;
/// and else, at any time, out of memory.
pub fn audit<R: Threads + Wait + Sync, G: Gate + Sync>(
    rt: &R,
    alloc: Global,
    case: Case,
    order: Option<Order>,
    workers: u32,
    gate: &G,
) -> Result<Report, AuditError>
    // When it is refused, and why.
    ensures err { IfErr result (IsRefusal case workers) }
    // An audited case isn't refused.
    ensures accepted { OnOk result (refusal_of case workers ≡ None) }
    // What it answers.
    ensures report { IfOk result (IsReport case order) }
    // What a yes means.
    ensures headline { IfOk result (YesMeansHeadline case.logs) }
{
    if let Some(error) = refused(&case, workers) {
        return Err(error);
    }
    let findings = find_all(rt, alloc, case, workers, gate)?;
    let report = match order {
        Some(order) => judge(alloc, findings, order)?,
        None => judge_unordered(alloc, findings)?,
    };
    Ok(report)
}
