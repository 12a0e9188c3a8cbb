//! Lanes in step.

ghost use Rattle.std.specs.Prelude.{◌≡◌, ◌<◌, ℕ, Some, OnOk, IfSome, true, is_none, length, map, slice_index_or};
ghost use Rattle.std.specs.List.{list_any};
ghost use Rattle.turn_taking.specs.Lanes.{LaneSoFar, GoesOn, HasNext};
ghost use Rattle.turn_taking.specs.Turned.{Taken};
ghost use Rattle.turn_taking.specs.Pass.{AreFurther, AreHeldUp, IsPass};

use crate::case_lane::{CaseLane, Turns};
use crate::rounds::take_rounds;
use std::alloc::{AllocError, Global};
use std::thread::{self, Threads};

/// Reads ahead in the lanes that have fewer than so many records ahead, in as many of them at once as there are workers.
pub(crate) fn fill_round<R: Threads + Sync, L: CaseLane + Send>(
    rt: &R,
    alloc: Global,
    lanes: &mut [L],
    enough: usize,
    workers: usize,
)
    requires { 0 < workers }
    ensures { (i : ℕ) (d : L) (before : LaneSoFar) → i < length lanes.old
        → L.so_far (slice_index_or lanes.old i d) ≡ Some before
        → IfSome (L.so_far (slice_index_or lanes.new i d))
        (λ longer. GoesOn before longer × HasNext longer) }
{
    thread::for_each_mut(
        rt,
        lanes,
        workers,
        &|_place: usize, lane: &mut L|
            ensures { (before : LaneSoFar) → L.so_far lane.entry.now ≡ Some before
                → IfSome (L.so_far lane.exit.now) (λ longer. GoesOn before longer × HasNext longer) }
        {
            lane.fill(alloc, enough);
        },
    );
}

/// Whether memory was refused to a lane.
pub(crate) fn are_refused<L: CaseLane>(lanes: &[L]) -> bool
    ensures { result ≡ list_any (λ lane. is_none (L.so_far lane)) lanes.now }
{
    lanes.iter().any(|lane| lane.is_refused())
}

/// How many records a lane is asked to have ahead. One that has some, and would have to wait for more, has enough.
const ENOUGH: usize = 4096;

/// Takes records of the lanes in turns, each as soon as it may come, until none may. More is read only once none of those that are
/// ahead may come. A log is waited for only where none of its records is ahead: who writes another may wait for it.
///
/// # Errors
///
/// Out of memory.
pub fn take_in_step<R: Threads + Sync, L: CaseLane + Send, T: Turns>(
    rt: &R,
    alloc: Global,
    lanes: &mut [L],
    turns: &mut T,
    workers: usize,
) -> Result<(), AllocError>
    requires { 0 < workers }
    ensures { OnOk result ((taken : Taken) → T.taken turns.old ≡ Some taken
        → IsPass (map L.so_far lanes.old) taken → (more : Taken) × (T.taken turns.new ≡ Some more)
        × (more.is_stuck ≡ taken.is_stuck)
        × (taken.is_stuck ≡ true → more.in_order ≡ taken.in_order)
        × AreFurther (map L.so_far lanes.old) (map L.so_far lanes.new)
        × IsPass (map L.so_far lanes.new) more
        × AreHeldUp (map L.so_far lanes.new) more) }
{
    for _ in 0..u64::MAX {
        fill_round(rt, alloc, lanes, ENOUGH, workers);
        if are_refused(lanes) {
            return Err(AllocError);
        }
        if !take_rounds(lanes, turns)? {
            return Ok(());
        }
    }
    Err(AllocError)
}
