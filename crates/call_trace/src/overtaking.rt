//! Until where calls are overtaken.

ghost use Rattle.std.specs.Prelude.{IfOk};
ghost use Rattle.call_trace.specs.Glue.Overtaking.{AreDeliveries, AreOvertaken};

use crate::latest::Latest;
use run_model::Step;
use std::alloc::{AllocError, Global};

/// Where each call is delivered last. A place is how many steps there are up to it.
fn deliveries(alloc: Global, steps: &[Step]) -> Result<Latest, AllocError>
    ensures { IfOk result (AreDeliveries steps.now) }
{
    let mut latest = Latest::new(alloc);
    for (index, step) in steps.iter().enumerate() {
        if let Step::Deliver { call, .. } = step {
            latest.raise(call.maker, call.number, index + 1)?;
        }
    }
    Ok(latest)
}

/// Where, for each call, the last is delivered of those that were made before it through its reference: until then it is
/// overtaken.
pub(crate) fn last_overtakings(alloc: Global, steps: &[Step]) -> Result<Latest, AllocError>
    ensures { IfOk result (AreOvertaken steps.now) }
{
    let delivered = deliveries(alloc, steps)?;
    let mut through = Latest::new(alloc);
    let mut until = Latest::new(alloc);
    for step in steps {
        if let Step::Make {
            vat,
            number,
            reference,
            ..
        } = step
        {
            until.raise(*vat, *number, through.of(*vat, *reference))?;
            through.raise(*vat, *reference, delivered.of(*vat, *number))?;
        }
    }
    Ok(until)
}
