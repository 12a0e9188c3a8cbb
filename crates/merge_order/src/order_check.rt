//! Whether an order fits.

ghost use Rattle.std.specs.Prelude.{◌≡◌, ◌↔◌, map, IfOk};
ghost use Rattle.std.specs.Arc.{arc_value};
ghost use Rattle.merge_order.specs.Fits.{IsRising, IsFitting, finding_of_order};

use crate::order::Order;
use crate::order_progress::Progress;
use std::alloc::{AllocError, Global};
use std::sync::Arc;
use vat_log::VatLog;

/// Whether an order fits.
#[derive(Clone, Copy, Debug, PartialEq, Eq)]
pub enum OrderFinding {
    /// It fits.
    Fits,
    /// The first step that may not come, counted from 0, or the order's length where records are left.
    Fails(u64),
}

/// Whether an order of the records of these logs fits. The logs come by rising vat numbers, no two the same. The first step
/// fails that names no log, a log without a record left, or a RECV before which that vat received on the connection as many
/// frames as the other vats sent on it. Where no step fails and records are left, the order's length does. The only error
/// is that memory ran out.
pub fn check_order(
    alloc: Global,
    logs: &[Arc<VatLog>],
    order: &Order,
) -> Result<OrderFinding, AllocError>
    // The logs come by rising vat numbers, no two the same.
    requires { IsRising (map arc_value logs.now) }
    // Which finding.
    ensures exact { IfOk result
        (λ finding. finding ≡ finding_of_order (map arc_value logs.now) order.now) }
    // What it means.
    ensures fits { IfOk result
        (λ finding. (finding ≡ OrderFinding.Fits) ↔ IsFitting (map arc_value logs.now) order.now) }
{
    let mut progress = Progress::new(alloc, logs)?;
    let vats = order.as_slice();
    for (step, vat) in vats.iter().enumerate() {
        if !progress.may_come(*vat) {
            return Ok(OrderFinding::Fails(step as u64));
        }
        progress.take(*vat)?;
    }
    if progress.is_used_up() {
        Ok(OrderFinding::Fits)
    } else {
        Ok(OrderFinding::Fails(vats.len() as u64))
    }
}
