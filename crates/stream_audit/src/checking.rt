//! The audit of a case whose logs come in streams.

ghost use Rattle.std.specs.Prelude.{◌≡◌, ◌<◌, ℕ, Some, None, Err, [], false, List, Option, IfOk, IfErr, OnOk};
ghost use Rattle.case_book.specs.Case.{HoldsJust, IsCase, case_refusal_of};
ghost use Rattle.case_book.specs.Ties.{tie_fault_of};
ghost use Rattle.audit_core.specs.Lines.{IsLineOf};
ghost use Rattle.audit_core.specs.Refusals.{worker_limit};
ghost use Rattle.log_lane.specs.Lanes.{ReadAhead};
ghost use Rattle.lock_step.specs.Taking.{Taken, turned};
ghost use Rattle.std.specs.List.Sorted.{IsPermutation};
ghost use Rattle.vat_log.specs.Log.{Log};
ghost use Rattle.turn_taking.specs.Lanes.{LaneSoFar};
ghost use Rattle.turn_taking.specs.Pass.{logs_of as case_logs};
ghost use Rattle.log_lane.specs.Slim.{logs_audited};
ghost use Rattle.stream_audit.specs.Glue.{IsTakenSo, IsYesBy};
ghost use Rattle.stream_audit.specs.Streamed.{AreFresh, AreReadOn, AreReadWhole, IsLineOfStreams, IsRefusalOf};
ghost use Rattle.stream_audit.specs.declared.error.StreamError.{StreamError};
ghost use Rattle.stream_audit.specs.declared.error.StreamError.TheVariants.{NoWorkers, TooManyWorkers};

use crate::error::StreamError;
use crate::first_lines::{link_line, log_line};
use crate::reading_in_turns::{OrderFound, are_apart, read_alone, read_in_turns, take_logs};
use audit_core::MAX_WORKERS;
use byte_pieces::Pieces;
use call_order::orders_have_one_fault;
use case_book::{Link, TieFault};
use case_report::{Breach, Report};
use lock_step::CaseTurns;
use log_lane::{LogLane, SlimCase, SlimLog};
use merge_order::Order;
use run_model::Run;
use std::alloc::{AllocError, Global};
use std::thread::Threads;

/// The case of these logs and links, if it ties up.
fn tied_case(logs: Vec<SlimLog>, links: Vec<Link>) -> Result<SlimCase, StreamError>
    ensures ok { IfOk result (λ case. (case_refusal_of (logs_audited logs.items) links.items ≡ None)
        × HoldsJust (logs_audited logs.items) links.items case × IsCase case × (tie_fault_of case ≡ None)) }
    ensures err { IfErr result (λ error. (lanes : List (Option ReadAhead)) (workers : ℕ)
        → AreReadWhole lanes (logs_audited logs.items) → IsRefusalOf lanes links.items workers error) }
{
    let case = SlimCase::new(logs, links)?;
    match case.tie_fault() {
        None => Ok(case),
        Some(TieFault::MissingLog(connection)) => Err(StreamError::MissingLog(connection)),
        Some(TieFault::SameEnds(connection)) => Err(StreamError::SameEnds(connection)),
    }
}

/// How many records a case may have: the most of each log.
const CASE_RECORDS: u64 = 1024 * 4_294_967_295;

/// The yes of a case whose records are all taken in order. A case has no more records than its logs may have.
fn yes(alloc: Global, case: &SlimCase, turns: &CaseTurns) -> Result<Report, AllocError>
    ensures { IfOk result (IsYesBy case.now turns.now) }
{
    if turns.records() > CASE_RECORDS {
        return Err(AllocError);
    }
    Ok(Report::Yes {
        vats: case.logs().len() as u64,
        records: turns.records(),
        delivered: turns.delivered(),
        under_way: turns.under_way(),
        run: Run::new(Vec::new(alloc)),
    })
}

/// The line of a case, as its records were taken.
fn line_of(
    alloc: Global,
    case: &SlimCase,
    turns: &CaseTurns,
    found: OrderFound,
) -> Result<Report, AllocError>
    ensures { (lanes : List (Option LaneSoFar)) (logs : List Log) (given : Option (List ℕ)) (taken : Taken)
        → turns.now ≡ Some taken → IsTakenSo lanes (turned taken) given found → logs ≡ case_logs lanes
        → IsPermutation logs case.now.logs → IsCase case.now → tie_fault_of case.now ≡ None
        → IfOk result (IsLineOf case.now given) }
{
    if let Some(line) = log_line(case.logs()) {
        return Ok(line);
    }
    if let Some(line) = link_line(case.links(), turns)? {
        return Ok(line);
    }
    match found {
        OrderFound::Fits => {}
        OrderFound::Fails(step) => return Ok(Report::OrderStep(step)),
        OrderFound::NoOrder => return Ok(Report::NoOrder),
    }
    // A law, for the proof: what is found by the turns is so by the order that is given, or by the least.
    orders_have_one_fault();
    match turns.fault() {
        Some((vat, at)) => Ok(Report::Vat {
            vat,
            at: at as u64,
            rule: Breach::Order,
        }),
        None => yes(alloc, case, turns),
    }
}

/// The report of a case before whose records no turn was taken, by at least one worker. The turns are the caller's, so that they are
/// dropped in one place.
fn check_by_turns<R: Threads + Sync, P: Pieces + Send>(
    rt: &R,
    alloc: Global,
    lanes: &mut [LogLane<P>],
    links: Vec<Link>,
    order: &Option<Order>,
    workers: usize,
    turns: &mut CaseTurns,
) -> Result<Report, StreamError>
    requires fresh { AreFresh lanes.old }
    requires some { 0 < workers }
    requires begun { turns.old ≡ Some (record { links = links.items; in_order = []; all = []; is_stuck = false }) }
    ensures err { IfErr result (IsRefusalOf lanes.new links.items workers) }
    ensures line { IfOk result (IsLineOfStreams lanes.new links.items order.now) }
    ensures lanes { OnOk result (AreReadOn lanes.old lanes.new) }
{
    if !are_apart(lanes) {
        read_alone(rt, alloc, lanes, workers)?;
        tied_case(take_logs(alloc, lanes)?, links)?;
        return Err(StreamError::OutOfMemory);
    }
    let found = read_in_turns(rt, alloc, lanes, turns, order, workers)?;
    let case = tied_case(take_logs(alloc, lanes)?, links)?;
    Ok(line_of(alloc, &case, turns, found)?)
}

/// Audits a case whose logs come in streams, for its line alone: it answers a report that the case has of the logs that came, as
/// [`audit`](audit_core::audit) does, without the run. Where it says yes, there is a run with all that a yes means. Of each log
/// only the header was read before. Each is read once, and none is kept, but what is under way, and what a later record may still
/// name.
///
/// # Errors
///
/// The first that applies of a [`StreamError`]. Each log is read to its end or to its first fault before one is answered, but
/// where memory is refused.
pub fn check_streams<R: Threads + Sync, P: Pieces + Send>(
    rt: &R,
    alloc: Global,
    lanes: &mut [LogLane<P>],
    links: Vec<Link>,
    order: Option<Order>,
    workers: u32,
) -> Result<Report, StreamError>
    requires { AreFresh lanes.old }
    // Its workers are counted first.
    ensures none { workers ≡ 0 → result ≡ Err NoWorkers }
    // More than 64 are too many.
    ensures many { worker_limit < workers → result ≡ Err TooManyWorkers }
    // Why there is no report.
    ensures err { IfErr result (IsRefusalOf lanes.new links.items workers) }
    // What it answers, and what a yes means.
    ensures line { IfOk result (IsLineOfStreams lanes.new links.items order) }
    // Of which logs: each lane goes on with its own.
    ensures lanes { OnOk result (AreReadOn lanes.old lanes.new) }
{
    if workers == 0 {
        return Err(StreamError::NoWorkers);
    }
    if workers > MAX_WORKERS {
        return Err(StreamError::TooManyWorkers);
    }
    let mut turns = CaseTurns::new(alloc, &links)?;
    check_by_turns(
        rt,
        alloc,
        lanes,
        links,
        &order,
        workers as usize,
        &mut turns,
    )
}
