//! Calls that wait for their delivery, by reference and turn of making.

ghost use Rattle.std.specs.Prelude.{◌≡◌, ◌==◌, ◌&&◌, ℕ, Option, Some, nat_lt, if◌then◌else◌};
ghost use Rattle.std.specs.BTreeMap.{get};
ghost use Rattle.std.specs.Option.{option_map};
ghost use Rattle.undelivered.specs.Places.{lesser};
ghost use Rattle.undelivered.specs.Glue.{key_cmp, IsLastBefore, AreWaitsRising};

use crate::place_order::has_at_most;
use std::collections::BTreeMap;

/// Of each call that isn't delivered, by its reference and its turn: the least place where one is delivered that was made
/// after it through its reference, if any is.
pub(crate) type Waits = BTreeMap<(u64, u64), Option<(u32, u32)>>;

/// The last of the calls through this reference before this turn, by its turn, and what is noted of it.
fn last_before(waiting: &Waits, reference: u64, turn: u64) -> Option<(u64, Option<(u32, u32)>)>
    ensures { IsLastBefore waiting.now reference turn result }
{
    let mut earlier = waiting.range((reference, 0)..(reference, turn));
    let (key, until) = earlier.next_back()?;
    Some((key.1, *until))
}

/// Notes this place for a call that waits. It takes no memory.
fn note(waiting: &mut Waits, reference: u64, turn: u64, place: (u32, u32))
    ensures { (known : Option (ℕ × ℕ)) → get key_cmp waiting.old (reference, turn) ≡ Some known
        → (r t : ℕ) → get key_cmp waiting.new (r, t)
        ≡ (if (r == reference) && (t == turn) then Some (Some place)
        else get key_cmp waiting.old (r, t)) }
{
    let _ = waiting.insert((reference, turn), Some(place));
}

/// Notes a delivery at this place for the calls through this reference before this turn, which waits no more. It ends at the
/// first for which a lesser place is noted, since those before it have none above.
pub(crate) fn lower_before(waiting: &mut Waits, reference: u64, turn: u64, place: (u32, u32))
    ensures { AreWaitsRising waiting.old → (r t : ℕ) → get key_cmp waiting.new (r, t)
        ≡ (if (r == reference) && nat_lt t turn
        then option_map (λ until. lesser until (Some place)) (get key_cmp waiting.old (r, t))
        else get key_cmp waiting.old (r, t)) }
{
    let mut below = turn;
    while let Some((earlier, until)) = last_before(waiting, reference, below) {
        if has_at_most(until, place) {
            return;
        }
        note(waiting, reference, earlier, place);
        below = earlier;
    }
}
