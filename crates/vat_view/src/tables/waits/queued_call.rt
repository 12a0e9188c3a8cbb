//! Received calls as they wait.

ghost use Rattle.std.specs.Prelude.{◌≡◌};
ghost use Rattle.vat_view.specs.Glue.Queues.{queued_under};

use crate::tables::turns::goal_key::GoalKey;
use crate::tables::waits::waiting_calls::Receipt;

/// A received call in the queue: calls of one connection to one goal stand together, in the order of their records.
#[derive(Clone, Copy, PartialEq, Eq, PartialOrd, Ord)]
pub(crate) struct QueuedCall {
    /// The connection on which it was received.
    pub(crate) connection: u32,
    /// Where it goes.
    pub(crate) heading: GoalKey,
    /// The number of its record in the log, counted from 0.
    pub(crate) number: usize,
    /// The call.
    pub(crate) call: u64,
}

impl QueuedCall {
    /// A call that was received so, with a goal of this heading.
    pub(crate) fn new(call: u64, receipt: Receipt, heading: GoalKey) -> QueuedCall
        ensures { result ≡ queued_under call receipt heading }
    {
        QueuedCall {
            connection: receipt.connection,
            heading,
            number: receipt.number,
            call,
        }
    }
}
