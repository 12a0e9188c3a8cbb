//! The order in which the records of a case are drawn.

ghost use Rattle.std.specs.Prelude.{◌≡◌, ◌++◌, map, replicate, IfOk};
ghost use Rattle.std.specs.Arc.{arc_value};
ghost use Rattle.std.specs.Option.{option_copied};
ghost use Rattle.picture.specs.Places.{completed, steps_left};
ghost use Rattle.picture.specs.Picture.{arranged};

use crate::order::flow::flow_of;
use crate::order::positions::steps_of;
use case_book::Case;
use merge_order::Order;
use std::alloc::{AllocError, Global};
use std::sync::Arc;
use vat_log::VatLog;

/// An order, with so many steps of a vat behind it.
fn with_steps(order: Vec<u32>, vat: u32, steps: usize) -> Result<Vec<u32>, AllocError>
    ensures { IfOk result (λ more. more.items ≡ order.items ++ replicate steps vat) }
{
    let mut order = order;
    for _ in 0..steps {
        order.push(vat)?;
    }
    Ok(order)
}

/// These steps, and behind them those that an order leaves of a log.
fn with_left(all: Vec<u32>, order: &[u32], log: &VatLog) -> Result<Vec<u32>, AllocError>
    ensures { IfOk result (λ more. more.items ≡ all.items ++ steps_left order.now log.now) }
{
    let came = steps_of(order, log.vat());
    with_steps(all, log.vat(), log.len().saturating_sub(came))
}

/// An order, and behind it what it leaves of these logs, by rising vat number.
fn completed(alloc: Global, order: &[u32], logs: &[Arc<VatLog>]) -> Result<Vec<u32>, AllocError>
    ensures { IfOk result (λ all. all.items ≡ completed (map arc_value logs.now) order.now) }
{
    let mut all = Vec::from_slice(alloc, order)?;
    for log in logs {
        all = with_left(all, order, log)?;
    }
    Ok(all)
}

/// The order in which the records of a case are drawn: the order that is given, or else the one in which each frame is
/// received as soon as may be, as far as it goes; and behind it what it leaves, by rising vat number.
pub fn arrange(alloc: Global, case: &Case, given: Option<&Order>) -> Result<Vec<u32>, AllocError>
    ensures { IfOk result
        (λ all. all.items ≡ arranged case.now (option_copied given.entry)) }
{
    match given {
        Some(order) => completed(alloc, order.as_slice(), case.logs()),
        None => {
            let begun = flow_of(alloc, case)?;
            completed(alloc, &begun, case.logs())
        }
    }
}
