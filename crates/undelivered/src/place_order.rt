//! Places of steps in a run: a vat, and how many steps of that vat stand before.

ghost use Rattle.std.specs.Prelude.{◌≡◌};
ghost use Rattle.undelivered.specs.Places.{is_at_most, lesser, has_at_most};

/// Whether a place is at most another, by vat and then by number.
#[tactic(auto, unfolding(crate::specs::Places::is_at_most))]
fn is_at_most(place: (u32, u32), other: (u32, u32)) -> bool
    ensures { result ≡ is_at_most place other }
{
    place.0 < other.0 || (place.0 == other.0 && place.1 <= other.1)
}

/// The lesser of two places of steps in a run, each a vat's number and how many steps of that vat stand before: by vat, then by
/// number. Where one is lacking it is the other.
pub fn lesser(one: Option<(u32, u32)>, other: Option<(u32, u32)>) -> Option<(u32, u32)>
    ensures { result ≡ lesser one other }
{
    match (one, other) {
        (Some(place), Some(second)) if is_at_most(place, second) => Some(place),
        (Some(_), Some(second)) => Some(second),
        (Some(place), None) => Some(place),
        (None, second) => second,
    }
}

/// Whether there is a place, and it is at most this one.
pub(crate) fn has_at_most(known: Option<(u32, u32)>, place: (u32, u32)) -> bool
    ensures { result ≡ has_at_most known place }
{
    match known {
        Some(known) => is_at_most(known, place),
        None => false,
    }
}
