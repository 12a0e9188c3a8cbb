//! Laws of lanes: what they tell of the logs that were read.

ghost use Rattle.std.specs.Prelude.{◌≡◌, ◌≢◌, ℕ, List, [], Option, false, length};
ghost use Rattle.turn_taking.specs.Turns.{AreAll, AreOf};
ghost use Rattle.turn_taking.specs.Orders.{AreLeft, AreStuck};
ghost use Rattle.turn_taking.specs.Lanes.{LaneSoFar};
ghost use Rattle.turn_taking.specs.Turned.{Taken};
ghost use Rattle.turn_taking.specs.Pass.{AreEmpty, AreFurther, AreHeldUp, AreThere, IsLaneAt, IsPass, logs_of};

/// Where no lane has a record ahead, the turns are all records of the logs that were read.
pub fn empty_lanes_took_all()
    ensures { (lanes : List (Option LaneSoFar)) (taken : Taken) → IsPass lanes taken → AreEmpty lanes
        → AreAll (logs_of lanes) taken.all }
{}

/// Where no record may come next, that stays so whatever is read later: the turns are of the logs, and stuck (`stuck`); and
/// records are left, where a lane has one ahead (`left`).
pub fn held_lanes_are_stuck()
    ensures stuck { (lanes later : List (Option LaneSoFar)) (taken : Taken) → taken.is_stuck ≡ false
        → IsPass lanes taken → AreHeldUp lanes taken → length later ≡ length lanes → AreThere later
        → AreFurther lanes later
        → AreOf (logs_of later) taken.in_order × AreStuck (logs_of later) taken.in_order }
    ensures left { (lanes later : List (Option LaneSoFar)) (taken : Taken) → taken.is_stuck ≡ false
        → IsPass lanes taken → length later ≡ length lanes → AreThere later → AreFurther lanes later
        → (i : ℕ) (lane : LaneSoFar) → IsLaneAt lanes i lane → lane.ahead ≢ []
        → AreLeft (logs_of later) taken.in_order }
{}
