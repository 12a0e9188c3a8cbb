//! Whole logs, by an order that is given.

ghost use Rattle.std.specs.Prelude.{◌≡◌, ◌≢◌, ◌<◌, ◌≤◌, ℕ, [], Some, IfOk, IfSome, IfNone, false, length, map};
ghost use Rattle.turn_taking.specs.Followed.{AreFollowedToTheEnd, IsStep};
ghost use Rattle.turn_taking.specs.Lanes.{LaneSoFar};
ghost use Rattle.turn_taking.specs.Pass.{AreFurther, IsLaneAt, IsPass, lane_vat};
ghost use Rattle.turn_taking.specs.Turned.{Taken};
ghost use Rattle.turn_taking.specs.WholeCase.{AreTakenBy};

use crate::case_lane::{CaseLane, Turns};
use crate::steps::{are_refused, fill_round, take_in_step};
use crate::whole::are_left;
use merge_order::{Order, OrderFinding};
use std::alloc::{AllocError, Global};
use std::thread::Threads;

/// The place of the first lane of a vat.
fn place_of<L: CaseLane>(lanes: &[L], vat: u32) -> Option<usize>
    ensures some { IfSome result (λ place. (place < length lanes.now)
        × ((lane : LaneSoFar) → IsLaneAt (map L.so_far lanes.now) place lane → lane_vat lane ≡ vat)) }
    ensures none { IfNone result ((i : ℕ) (lane : LaneSoFar)
        → IsLaneAt (map L.so_far lanes.now) i lane → lane_vat lane ≢ vat) }
{
    for place in 0..lanes.len() {
        if lanes[place].vat() == vat {
            return Some(place);
        }
    }
    None
}

/// The vat of a lane takes its next record, if it has one that may come. Whether it did.
fn take_next<L: CaseLane, T: Turns>(
    alloc: Global,
    lane: &mut L,
    turns: &mut T,
) -> Result<bool, AllocError>
    ensures { IfOk result (λ took. (before : LaneSoFar) (taken : Taken) → L.so_far lane.old ≡ Some before
        → T.taken turns.old ≡ Some taken → IsStep before taken (L.so_far lane.new) (T.taken turns.new) took) }
{
    lane.fill(alloc, 1);
    if lane.is_refused() {
        return Err(AllocError);
    }
    let vat = lane.vat();
    let Some(record) = lane.first() else {
        return Ok(false);
    };
    let body = record.body();
    if !turns.may_come(vat, body) {
        return Ok(false);
    }
    turns.take(vat, body)?;
    lane.leave();
    Ok(true)
}

/// Takes records by these steps, up to the first that may not come. How many were taken.
fn take_steps<L: CaseLane, T: Turns>(
    alloc: Global,
    lanes: &mut [L],
    turns: &mut T,
    steps: &[u32],
) -> Result<usize, AllocError>
    ensures few { IfOk result (λ count. count ≤ length steps.now) }
    ensures taken { IfOk result (λ count. (taken : Taken) → T.taken turns.old ≡ Some taken → taken.is_stuck ≡ false
        → IsPass (map L.so_far lanes.old) taken → (more : Taken) × (T.taken turns.new ≡ Some more)
        × AreFollowedToTheEnd (map L.so_far lanes.old) (map L.so_far lanes.new) taken more steps.now count) }
{
    let mut count = 0;
    for vat in steps {
        let Some(place) = place_of(lanes, *vat) else {
            return Ok(count);
        };
        if !take_next(alloc, &mut lanes[place], turns)? {
            return Ok(count);
        }
        count += 1;
    }
    Ok(count)
}

/// How many steps of an order are taken before the lanes are read ahead again. A lane of which so many are ahead isn't used up by
/// them.
const STEPS: usize = 2048;

/// Takes records by an order, up to its first step that may not come; the lanes are read ahead from time to time. How many steps were
/// taken.
fn follow<R: Threads + Sync, L: CaseLane + Send, T: Turns>(
    rt: &R,
    alloc: Global,
    lanes: &mut [L],
    turns: &mut T,
    order: &Order,
    workers: usize,
) -> Result<usize, AllocError>
    requires { 0 < workers }
    ensures { IfOk result (λ count. (taken : Taken) → T.taken turns.old ≡ Some taken → taken.is_stuck ≡ false
        → IsPass (map L.so_far lanes.old) taken → (more : Taken) × (T.taken turns.new ≡ Some more)
        × AreFollowedToTheEnd (map L.so_far lanes.old) (map L.so_far lanes.new) taken more order.now count) }
{
    let mut count = 0;
    let mut rest = order.as_slice();
    for _ in 0..u64::MAX {
        if rest.is_empty() {
            return Ok(count);
        }
        fill_round(rt, alloc, lanes, STEPS, workers);
        if are_refused(lanes) {
            return Err(AllocError);
        }
        let (steps, later) = rest.split_at(STEPS.min(rest.len()));
        let taken = take_steps(alloc, lanes, turns, steps)?;
        count += taken;
        if taken < steps.len() {
            return Ok(count);
        }
        rest = later;
    }
    Err(AllocError)
}

/// Reads the logs of the lanes to their ends, and takes all their records: by an order as far as it fits, the rest as it comes.
/// Whether the order fits, or else its first step that may not come.
///
/// # Errors
///
/// Out of memory.
pub fn take_by_order<R: Threads + Sync, L: CaseLane + Send, T: Turns>(
    rt: &R,
    alloc: Global,
    lanes: &mut [L],
    turns: &mut T,
    order: &Order,
    workers: usize,
) -> Result<OrderFinding, AllocError>
    requires { 0 < workers }
    ensures { IfOk result (λ finding. (taken : Taken) → T.taken turns.old ≡ Some taken → taken.is_stuck ≡ false
        → taken.in_order ≡ [] → IsPass (map L.so_far lanes.old) taken
        → (more : Taken) × (T.taken turns.new ≡ Some more)
        × AreTakenBy (map L.so_far lanes.new) more order.now finding
        × AreFurther (map L.so_far lanes.old) (map L.so_far lanes.new)) }
{
    let count = follow(rt, alloc, lanes, turns, order, workers)?;
    fill_round(rt, alloc, lanes, 1, workers);
    if are_refused(lanes) {
        return Err(AllocError);
    }
    if count == order.as_slice().len() && !are_left(lanes) {
        return Ok(OrderFinding::Fits);
    }
    turns.give_up();
    take_in_step(rt, alloc, lanes, turns, workers)?;
    Ok(OrderFinding::Fails(count as u64))
}
