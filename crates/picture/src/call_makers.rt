//! The calls that records name, and the references through which they were made.

ghost use Rattle.std.specs.Prelude.{◌≡◌, ◌==◌, slice_get};
ghost use Rattle.run_model.specs.Steps.{vat_of};
ghost use Rattle.picture.specs.Places.{passes_in, place_of_nth};
ghost use Rattle.picture.specs.Rows.{are_kin, call_at_place, maker_at, maker_by, maker_of};

use crate::record_place::Place;
use report_lines::call_of_step;
use run_model::{Name, Step, vat_of};

/// The vat that made a call, and the reference through which it made it.
#[derive(Clone, Copy, PartialEq, Eq)]
pub struct Maker {
    /// The vat.
    pub vat: u32,
    /// The vat's reference.
    pub reference: u64,
}

/// Whether a step of a run is this vat's.
fn is_own(steps: &[Step], at: usize, vat: u32) -> bool
    ensures { result ≡ passes_in (λ step. vat_of step == vat) (slice_get steps.now at) }
{
    matches!(steps.get(at), Some(step) if vat_of(step) == vat)
}

/// The step of a run, of all records, that is this record.
fn step_at(steps: &[Step], place: Place) -> Option<usize>
    ensures { result ≡ place_of_nth (λ step. vat_of step == place.vat) place.number steps.now }
{
    let mut left = place.number;
    for at in 0..steps.len() {
        if is_own(steps, at, place.vat) {
            if left == 0 {
                return Some(at);
            }
            left -= 1;
        }
    }
    None
}

/// The call that a record names, in a run of all records.
fn call_at(steps: &[Step], place: Place) -> Option<Name>
    ensures { result ≡ call_at_place steps.now place }
{
    call_of_step(steps.get(step_at(steps, place)?)?)
}

/// Who made a call, and through which reference, where this step makes it.
fn maker_by(call: Name, step: &Step) -> Option<Maker>
    ensures { result ≡ maker_by call step.now }
{
    match step {
        Step::Make {
            vat,
            number,
            reference,
            ..
        } if *vat == call.maker && *number == call.number => Some(Maker {
            vat: *vat,
            reference: *reference,
        }),
        _ => None,
    }
}

/// Who made a call, and through which reference.
fn maker_of(steps: &[Step], call: Name) -> Option<Maker>
    ensures { result ≡ maker_of steps.now call }
{
    for step in steps {
        if let Some(maker) = maker_by(call, step) {
            return Some(maker);
        }
    }
    None
}

/// Who made the call that a record names, and through which reference.
pub fn maker_at(steps: &[Step], place: Place) -> Option<Maker>
    ensures { result ≡ maker_at steps.now place }
{
    maker_of(steps, call_at(steps, place)?)
}

/// Whether both are there, and the same.
pub fn are_kin(one: Option<Maker>, other: Option<Maker>) -> bool
    ensures { result ≡ are_kin one other }
{
    match (one, other) {
        (Some(one), Some(other)) => one.vat == other.vat && one.reference == other.reference,
        _ => false,
    }
}
