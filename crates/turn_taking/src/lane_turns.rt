//! Turns of one lane.

ghost use Rattle.std.specs.Prelude.{◌≡◌, ◌<◌, Some, IfOk};
ghost use Rattle.turn_taking.specs.Lanes.{LaneSoFar};
ghost use Rattle.turn_taking.specs.Turned.{Taken};
ghost use Rattle.turn_taking.specs.Pass.{TookTurns, IsLaneHeldUp};

use crate::case_lane::{CaseLane, Turns};
use std::alloc::AllocError;
use vat_log::Body;

/// The vat of a lane takes its turns with the records that are ahead, as long as they may come and for so many at most; where too
/// many frames are under way, it ends behind one that it sends. How many it took.
pub fn take_from<L: CaseLane, T: Turns>(
    lane: &mut L,
    turns: &mut T,
    most: usize,
) -> Result<usize, AllocError>
    requires { 0 < most }
    ensures { IfOk result (λ count. (before : LaneSoFar) (taken : Taken) → L.so_far lane.old ≡ Some before
        → T.taken turns.old ≡ Some taken
        → (after : LaneSoFar) × (more : Taken) × (L.so_far lane.new ≡ Some after)
        × (T.taken turns.new ≡ Some more) × TookTurns before after taken more count
        × (count ≡ 0 → IsLaneHeldUp more after)) }
{
    let vat = lane.vat();
    let mut count = 0;
    while count < most {
        let Some(record) = lane.first() else {
            break;
        };
        let body = record.body();
        if !turns.may_come(vat, body) {
            break;
        }
        let sends = matches!(body, Body::Send { .. });
        turns.take(vat, body)?;
        lane.leave();
        count += 1;
        if sends && turns.is_crowded() {
            break;
        }
    }
    Ok(count)
}
