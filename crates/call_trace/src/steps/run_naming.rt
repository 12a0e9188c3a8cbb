//! The run of good logs by an order.

ghost use Rattle.std.specs.Prelude.{IfOk};
ghost use Rattle.call_trace.specs.Findings.{MayBeNamed};
ghost use Rattle.call_trace.specs.Named.{IsRunOf};

use crate::steps::turns::TracedTurns;
use merge_order::Order;
use run_model::Run;
use std::alloc::{AllocError, Global};
use vat_rules::VatFinding;

/// The run of good findings by an order: each step of the order is that of the next record of the vat that it names. The
/// logs are their vats' parts of the run. It is a run of the machine over first-in first-out links; in it each call reached
/// the object that it was to go to, each capability that a vat uses is one that it has, each number was used in its life,
/// and the counts of both ends of each connection balance. There is one such run ([`crate::findings_have_one_run`]).
///
/// The findings come by rising vat numbers, and the order fits their logs. Each connection is used by two of the logs at
/// most, and the frames that either of them received on it are a prefix of those that the other sent.
///
/// # Errors
///
/// Out of memory.
pub fn name_run(alloc: Global, findings: &[VatFinding], order: &Order) -> Result<Run, AllocError>
    requires { MayBeNamed findings.now order.now }
    ensures { IfOk result (IsRunOf findings.now order.now) }
{
    let vats = order.as_slice();
    let mut turns = TracedTurns::new(alloc, findings, vats.len())?;
    for vat in vats {
        turns.turn(alloc, findings, *vat)?;
    }
    Ok(turns.into_run())
}
