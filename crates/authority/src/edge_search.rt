//! Finding edges, step by step.

ghost use Rattle.std.specs.Prelude.{◌≡◌, ◌+◌, ◌<◌, IfOk, length};
ghost use Rattle.run_model.specs.Edges.{AreEdges};
ghost use Rattle.run_model.specs.Steps.{vat_of};
ghost use Rattle.authority.specs.Glue.EdgeTables.{foreign, IsFoundBefore, IsStepNumber};

use crate::edges::Graph;
use crate::witnesses::Witnesses;
use run_model::{Cap, Run, Step, StepNumbers, vat_of};
use std::alloc::{AllocError, Global};

/// Whether the capability is another vat's.
fn is_foreign(vat: u32, cap: &Cap) -> bool
    ensures { result ≡ foreign vat cap.now }
{
    match cap {
        Cap::Object(owner, _) => *owner != vat,
        Cap::Promise(owner, _) => *owner != vat,
        Cap::Field(call, _) => call.maker != vat,
        Cap::Nothing => false,
    }
}

/// The edges, with those of the step at this index, of which so many steps of its vat stand before it.
fn with_step(
    found: Witnesses,
    steps: &[Step],
    index: usize,
    number: u64,
) -> Result<Witnesses, AllocError>
    requires within { index < length steps.now }
    requires number { IsStepNumber steps.now index number }
    requires so_far { IsFoundBefore steps.now index found }
    ensures { IfOk result (IsFoundBefore steps.now (index + 1)) }
{
    let mut found = found;
    if let Step::Receive { vat, bound, .. } = &steps[index] {
        for (place, cap) in bound.as_slice().iter().enumerate() {
            if is_foreign(*vat, cap) {
                found = found.add(*vat, cap, number, place as u64)?;
            }
        }
    }
    Ok(found)
}

/// The edges of these steps, in the order in which they are found.
pub(crate) fn find(alloc: Global, steps: &[Step]) -> Result<Witnesses, AllocError>
    ensures { IfOk result (IsFoundBefore steps.now (length steps.now)) }
{
    let mut numbers = StepNumbers::new(alloc);
    let mut found = Witnesses::new(alloc);
    for index in 0..steps.len() {
        let number = numbers.count(vat_of(&steps[index]))?;
        found = with_step(found, steps, index, number)?;
    }
    Ok(found)
}

/// The edges of a run: where each vat first bound each capability of another, by vat, then by record, then by
/// index among what the record binds. The only error is that memory ran out.
pub fn graph(alloc: Global, run: &Run) -> Result<Graph, AllocError>
    ensures { IfOk result (AreEdges run.now) }
{
    let found = find(alloc, run.steps())?;
    Graph::new(alloc, found.by_place()?)
}
