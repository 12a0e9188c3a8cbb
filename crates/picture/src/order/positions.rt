//! Where records stand in an order of them all.

ghost use Rattle.std.specs.Prelude.{◌≡◌, ◌≤◌, count_by, slice_get};
ghost use Rattle.picture.specs.Places.{is_vat, passes_in, record_number, step_of_place};
ghost use Rattle.picture.specs.Rows.{place_at};

use crate::record_place::Place;

/// Whether a step of an order is this vat's.
pub fn is_step_of(order: &[u32], step: usize, vat: u32) -> bool
    ensures { result ≡ passes_in (is_vat vat) (slice_get order.now step) }
{
    matches!(order.get(step), Some(other) if *other == vat)
}

/// How many steps of a vat stand before a step of an order: the number of its record that comes there.
pub fn record_number(order: &[u32], step: usize, vat: u32) -> usize
    ensures number { result ≡ record_number order.now step vat }
    ensures few { result ≤ step }
{
    let mut before = 0;
    for at in 0..step {
        if is_step_of(order, at, vat) {
            before += 1;
        }
    }
    before
}

/// How many steps of an order are this vat's.
pub fn steps_of(order: &[u32], vat: u32) -> usize
    ensures { result ≡ count_by (is_vat vat) order.now }
{
    let mut steps = 0;
    for step in order {
        if *step == vat {
            steps += 1;
        }
    }
    steps
}

/// The step of an order at which a record comes.
pub fn step_of(order: &[u32], place: Place) -> Option<usize>
    ensures { result ≡ step_of_place order.now place }
{
    let mut left = place.number;
    for step in 0..order.len() {
        if is_step_of(order, step, place.vat) {
            if left == 0 {
                return Some(step);
            }
            left -= 1;
        }
    }
    None
}

/// The record at a step of an order.
pub fn place_at(order: &[u32], step: usize) -> Option<Place>
    ensures { result ≡ place_at order.now step }
{
    let vat = *order.get(step)?;
    let number = record_number(order, step, vat);
    Some(Place { vat, number })
}
