//! The logs of a case, read to their ends.

ghost use Rattle.std.specs.Prelude.{◌≡◌, ◌≢◌, ◌<◌, ◌≤◌, ℕ, List, [], Some, false, true, IfOk, IfErr, slice_get};
ghost use Rattle.case_book.specs.declared.link.Link.{Link};
ghost use Rattle.log_lane.specs.Lanes.{ReadAhead};
ghost use Rattle.turn_taking.specs.Pass.{IsPass};
ghost use Rattle.lock_step.specs.Taking.{Taken, turned};
ghost use Rattle.stream_audit.specs.Glue.{AreApart, AreFoundIn, IsTakenSo, so_far};
ghost use Rattle.stream_audit.specs.Streamed.{AreFresh, AreReadOn, IsRefusalOf};

use crate::error::StreamError;
use crate::nothing::NothingKept;
use byte_pieces::Pieces;
use lock_step::CaseTurns;
use log_lane::{LogLane, SlimLog};
use merge_order::{Order, OrderFinding};
use std::alloc::{AllocError, Global};
use std::thread::Threads;
use turn_taking::{CaseLane as _, take_all, take_by_order, take_in_step};

/// What is found of the order of a case's records.
#[derive(Clone, Copy, PartialEq, Eq)]
pub(crate) enum OrderFound {
    /// The order that is given fits, or some order does.
    Fits,
    /// The order that is given fits up to this step.
    Fails(u64),
    /// No order fits.
    NoOrder,
}

/// Whether no lane from a place on is of this vat.
fn is_of_others<P: Pieces>(lanes: &[LogLane<P>], from: usize, vat: u32) -> bool
    requires { AreFresh lanes.now }
    ensures { result ≡ true → (i : ℕ) (lane : ReadAhead) → from ≤ i
        → slice_get lanes.now i ≡ Some (Some lane) → lane.read.log.vat ≢ vat }
{
    for place in from..lanes.len() {
        if lanes[place].vat() == vat {
            return false;
        }
    }
    true
}

/// Whether all logs are of different vats.
pub(crate) fn are_apart<P: Pieces>(lanes: &[LogLane<P>]) -> bool
    requires { AreFresh lanes.now }
    ensures { result ≡ true → AreApart lanes.now }
{
    for place in 0..lanes.len() {
        if !is_of_others(lanes, place + 1, lanes[place].vat()) {
            return false;
        }
    }
    true
}

/// Reads the logs to their ends, and takes their records in turns as far as an order fits: the one that is given, or any.
pub(crate) fn read_in_turns<R: Threads + Sync, P: Pieces + Send>(
    rt: &R,
    alloc: Global,
    lanes: &mut [LogLane<P>],
    turns: &mut CaseTurns,
    order: &Option<Order>,
    workers: usize,
) -> Result<OrderFound, AllocError>
    requires { 0 < workers }
    ensures { IfOk result (λ found. (taken : Taken) → turns.old ≡ Some taken → taken.is_stuck ≡ false → taken.in_order ≡ []
        → IsPass (so_far lanes.old) (turned taken)
        → (more : Taken) × (turns.new ≡ Some more) × IsTakenSo (so_far lanes.new) (turned more) order.now found
        × AreReadOn lanes.old lanes.new) }
{
    let Some(order) = order else {
        if take_all(rt, alloc, lanes, turns, workers)? {
            return Ok(OrderFound::Fits);
        }
        return Ok(OrderFound::NoOrder);
    };
    match take_by_order(rt, alloc, lanes, turns, order, workers)? {
        OrderFinding::Fits => Ok(OrderFound::Fits),
        OrderFinding::Fails(step) => Ok(OrderFound::Fails(step)),
    }
}

/// Reads the logs to their ends, where they make no case.
pub(crate) fn read_alone<R: Threads + Sync, P: Pieces + Send>(
    rt: &R,
    alloc: Global,
    lanes: &mut [LogLane<P>],
    workers: usize,
) -> Result<(), AllocError>
    requires { 0 < workers }
{
    take_in_step(rt, alloc, lanes, &mut NothingKept, workers)
}

/// What is left of the logs; or the first that isn't whole.
pub(crate) fn take_logs<P: Pieces>(
    alloc: Global,
    lanes: &mut [LogLane<P>],
) -> Result<Vec<SlimLog>, StreamError>
    ensures lanes { lanes.new ≡ lanes.old }
    ensures ok { IfOk result (λ logs. AreFoundIn lanes.new logs.items) }
    ensures err { IfErr result (λ error. (links : List Link) (workers : ℕ) → IsRefusalOf lanes.new links workers error) }
{
    let mut logs = Vec::new(alloc);
    for place in 0..lanes.len() {
        match lanes[place].take_log(alloc) {
            Ok(log) => logs.push(log)?,
            Err(Some(fault)) => return Err(StreamError::Log { place, fault }),
            Err(None) => return Err(StreamError::OutOfMemory),
        }
    }
    Ok(logs)
}
