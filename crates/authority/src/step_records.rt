//! Which record of its vat each step is.

ghost use Rattle.std.specs.Prelude.{◌≡◌, IfOk};
ghost use Rattle.authority.specs.Records.{record_numbers_of};

use run_model::{Run, StepNumbers, vat_of};
use std::alloc::{AllocError, Global};

/// The number of each step's record in its vat's log, counted from 0: how many steps of its vat came before it. The only
/// error is that memory ran out.
pub fn record_numbers(alloc: Global, run: &Run) -> Result<Vec<u64>, AllocError>
    ensures { IfOk result (λ numbers. numbers.items ≡ record_numbers_of run.now) }
{
    let mut counts = StepNumbers::new(alloc);
    let mut numbers = Vec::new(alloc);
    for step in run.steps() {
        numbers.push(counts.count(vat_of(step))?)?;
    }
    Ok(numbers)
}
