//! Whole logs, read to their ends.

ghost use Rattle.std.specs.Prelude.{◌≡◌, ◌≢◌, ◌<◌, ℕ, [], Some, IfOk, true, false, map};
ghost use Rattle.turn_taking.specs.Lanes.{LaneSoFar};
ghost use Rattle.turn_taking.specs.Turned.{Taken};
ghost use Rattle.turn_taking.specs.Pass.{AreEmpty, AreFurther, AreThere, IsLaneAt, IsPass};
ghost use Rattle.turn_taking.specs.WholeCase.{AreTaken};

use crate::case_lane::{CaseLane, Turns};
use crate::steps::take_in_step;
use std::alloc::{AllocError, Global};
use std::thread::Threads;

/// Whether a record is ahead in any of the lanes.
pub(crate) fn are_left<L: CaseLane>(lanes: &[L]) -> bool
    ensures none { AreThere (map L.so_far lanes.now) → result ≡ false → AreEmpty (map L.so_far lanes.now) }
    ensures some { AreThere (map L.so_far lanes.now) → result ≡ true → (i : ℕ) × (lane : LaneSoFar)
        × IsLaneAt (map L.so_far lanes.now) i lane × (lane.ahead ≢ []) }
{
    for place in 0..lanes.len() {
        if lanes[place].first().is_some() {
            return true;
        }
    }
    false
}

/// Reads the logs of the lanes to their ends, and takes all their records: in turns as far as an order fits, the rest as it comes.
/// Whether one fits.
///
/// # Errors
///
/// Out of memory.
pub fn take_all<R: Threads + Sync, L: CaseLane + Send, T: Turns>(
    rt: &R,
    alloc: Global,
    lanes: &mut [L],
    turns: &mut T,
    workers: usize,
) -> Result<bool, AllocError>
    requires { 0 < workers }
    ensures { IfOk result (λ fits. (taken : Taken) → T.taken turns.old ≡ Some taken → taken.is_stuck ≡ false
        → IsPass (map L.so_far lanes.old) taken
        → (more : Taken) × (T.taken turns.new ≡ Some more) × AreTaken (map L.so_far lanes.new) more fits
        × AreFurther (map L.so_far lanes.old) (map L.so_far lanes.new)) }
{
    take_in_step(rt, alloc, lanes, turns, workers)?;
    let fits = !are_left(lanes);
    if !fits {
        turns.give_up();
        take_in_step(rt, alloc, lanes, turns, workers)?;
    }
    Ok(fits)
}
