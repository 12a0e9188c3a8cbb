//! How many records were taken.

ghost use Rattle.std.specs.Prelude.{◌≤◌, OnOk};

use std::alloc::AllocError;
use vat_log::Body;

/// How many records were taken, and how many of them are of some kinds.
#[derive(Clone, Copy)]
pub(crate) struct CaseCounts {
    pub(crate) records: u64,
    /// Those that deliver a call.
    pub(crate) delivered: u64,
    /// Those that send a frame.
    pub(crate) sent: u64,
    /// Those that receive a frame.
    pub(crate) received: u64,
    ghost few_delivered: { delivered ≤ records },
    ghost few_sent: { sent ≤ records },
    ghost few_received: { received ≤ records },
}

impl CaseCounts {
    ghost use Rattle.lock_step.specs.Tied.{AreCounted, IsCounted};
    ghost use Rattle.std.specs.Prelude.{[]};

    /// Before any record.
    pub(crate) fn new() -> CaseCounts
        ensures { AreCounted [] result }
    {
        CaseCounts {
            records: 0,
            delivered: 0,
            sent: 0,
            received: 0,
        }
    }

    /// One record more. The only error is out of memory, where there were 2^64 - 1.
    pub(crate) fn add(&mut self, body: &Body) -> Result<(), AllocError>
        ensures { OnOk result (IsCounted body.now self.old self.new) }
    {
        let Some(records) = self.records.checked_add(1) else {
            return Err(AllocError);
        };
        self.records = records;
        match body {
            Body::Deliver { .. } => self.delivered += 1,
            Body::Send { .. } => self.sent += 1,
            Body::Receive { .. } => self.received += 1,
            _ => {}
        }
        Ok(())
    }
}
