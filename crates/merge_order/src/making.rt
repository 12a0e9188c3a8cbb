//! Making an order.

ghost use Rattle.std.specs.Prelude.{◌≡◌, ℕ, List, None, map, IfOk, IfSome};
ghost use Rattle.std.specs.Arc.{arc_value};
ghost use Rattle.merge_order.specs.Fits.{IsRising, IsFitting, TakesLeast};

use crate::order::Order;
use crate::schedule::Schedule;
use std::alloc::{AllocError, Global};
use std::sync::Arc;
use vat_log::VatLog;

/// An order of the records of these logs that fits, wherever one does: at each step the smallest vat number whose next
/// record may come. None where no order fits. The logs come by rising vat numbers, no two the same. The only error is want
/// of memory.
pub fn make_order(alloc: Global, logs: &[Arc<VatLog>]) -> Result<Option<Order>, AllocError>
    // The logs come by rising vat numbers, no two the same.
    requires { IsRising (map arc_value logs.now) }
    // The order that is made fits, and takes the smallest vat number that may come at each step.
    ensures fits { IfOk result
        (λ made. IfSome made (λ order. IsFitting (map arc_value logs.now) order)) }
    ensures least { IfOk result
        (λ made. IfSome made (λ order. TakesLeast (map arc_value logs.now) order)) }
    // None is made only where no order fits.
    ensures none { IfOk result
        (λ made. made ≡ None → (order : List ℕ) → IsFitting (map arc_value logs.now) order → ⊥) }
{
    let mut schedule = Schedule::new(alloc, logs)?;
    let mut vats = Vec::new(alloc);
    while let Some(vat) = schedule.least() {
        vats.push(vat)?;
        schedule.take(vat)?;
    }
    if schedule.is_used_up() {
        Ok(Some(Order::new(vats)))
    } else {
        Ok(None)
    }
}
