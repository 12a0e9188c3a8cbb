//! Where the order of calls is broken.

ghost use Rattle.std.specs.Prelude.{◌≡◌, ◌<◌, ◌^◌, ℕ, Some, None, false, length, IfOk};
ghost use Rattle.run_model.specs.Steps.{steps_of};
ghost use Rattle.run_model.specs.Early.{IsOrderFault};
ghost use Rattle.call_trace.specs.Glue.Overtaking.{AreOvertaken, least_place_with, goes_before};

use crate::latest::Latest;
use crate::overtaking::last_overtakings;
use run_model::{Run, Step, StepNumbers, vat_of};
use std::alloc::{AllocError, Global};

/// The least of these, by vat and then by number.
fn least(known: Option<(u32, u32)>, place: (u32, u32)) -> (u32, u32)
    ensures { result ≡ least_place_with known place }
{
    match known {
        Some(least) if least.0 < place.0 || (least.0 == place.0 && least.1 <= place.1) => least,
        _ => place,
    }
}

/// Whether the step at this place delivers a call that is overtaken.
fn is_early(step: &Step, place: usize, until: &Latest) -> bool
    ensures { result ≡ goes_before until.now place step.now }
{
    match step {
        Step::Deliver { call, .. } => place < until.of(call.maker, call.number),
        _ => false,
    }
}

/// Whether a step of these delivers a call that is overtaken.
fn is_any_early(steps: &[Step], until: &Latest) -> bool
    requires { AreOvertaken steps.now until.now }
    ensures { result ≡ false → IsOrderFault steps.now None }
{
    for (index, step) in steps.iter().enumerate() {
        if is_early(step, index + 1, until) {
            return true;
        }
    }
    false
}

/// Where the run breaks the order of calls: a step that delivers a call although another, which was made before it through
/// the same reference, is delivered only later. The step is told by its vat and by how many steps of that vat stand before
/// it; of several the one of the smallest vat, and then the first. None where the run keeps the order. Each vat has fewer
/// than 2^32 steps in the run. The only error is that memory ran out.
pub fn order_fault(alloc: Global, run: &Run) -> Result<Option<(u32, u32)>, AllocError>
    requires { (vat : ℕ) → length (steps_of vat run.now) < 2 ^ 32 }
    ensures { IfOk result (IsOrderFault run.now) }
{
    let steps = run.steps();
    let until = last_overtakings(alloc, steps)?;
    if !is_any_early(steps, &until) {
        return Ok(None);
    }
    let mut numbers = StepNumbers::new(alloc);
    let mut fault = None;
    for (index, step) in steps.iter().enumerate() {
        let vat = vat_of(step);
        let number = numbers.count(vat)?;
        if is_early(step, index + 1, &until) {
            fault = Some(least(fault, (vat, number as u32)));
        }
    }
    Ok(fault)
}
