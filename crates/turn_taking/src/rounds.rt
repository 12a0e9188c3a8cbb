//! Turns of all lanes.

ghost use Rattle.std.specs.Prelude.{◌≡◌, ◌<◌, Some, IfOk, map};
ghost use Rattle.turn_taking.specs.Turned.{Taken};
ghost use Rattle.turn_taking.specs.Pass.{IsRound, AreThere};

use crate::case_lane::{CaseLane, Turns};
use crate::lane_turns::take_from;
use std::alloc::AllocError;

/// The vat of each lane, one lane after another, takes its turns, for so many records at most. Whether any took one.
pub fn take_round<L: CaseLane, T: Turns>(
    lanes: &mut [L],
    turns: &mut T,
    most: usize,
) -> Result<bool, AllocError>
    requires { 0 < most }
    ensures { IfOk result (λ some. (taken : Taken) → AreThere (map L.so_far lanes.old)
        → T.taken turns.old ≡ Some taken → (more : Taken) × (T.taken turns.new ≡ Some more)
        × AreThere (map L.so_far lanes.new)
        × IsRound (map L.so_far lanes.old) (map L.so_far lanes.new) taken more some) }
{
    let mut some = false;
    for place in 0..lanes.len() {
        if take_from(&mut lanes[place], turns, most)? > 0 {
            some = true;
        }
    }
    Ok(some)
}

/// How many records of a lane are taken at most before the next lane has its turn.
const MOST: usize = 256;

/// The vats of the lanes take their turns, round after round, until none may take one with what is ahead. Whether any took one.
pub(crate) fn take_rounds<L: CaseLane, T: Turns>(
    lanes: &mut [L],
    turns: &mut T,
) -> Result<bool, AllocError>
    ensures { IfOk result (λ some. (taken : Taken) → AreThere (map L.so_far lanes.old)
        → T.taken turns.old ≡ Some taken → (more : Taken) × (T.taken turns.new ≡ Some more)
        × AreThere (map L.so_far lanes.new)
        × IsRound (map L.so_far lanes.old) (map L.so_far lanes.new) taken more some) }
{
    let mut some = false;
    for _ in 0..u64::MAX {
        if !take_round(lanes, turns, MOST)? {
            return Ok(some);
        }
        some = true;
    }
    Err(AllocError)
}
