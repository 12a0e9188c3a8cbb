//! A log, and how many of its records came already.

ghost use Rattle.std.specs.Prelude.{◌≡◌, ◌+◌, ◌<◌, ◌^◌, ℕ, length, IfOk, OnOk, nat_le, slice_get};
ghost use Rattle.std.specs.Arc.{arc_value};
ghost use Rattle.std.specs.Option.{option_copied};

use crate::connection_counts::ConnectionCounts;
use std::alloc::{AllocError, Global};
use std::marker::Model;
use std::sync::Arc;
use vat_log::{Body, Record, VatLog};

/// A log, how many of its records came already, and how many frames these sent and received on each connection.
#[derive(Drop)]
pub struct Cursor {
    log: Arc<VatLog>,
    came: usize,
    sent_counts: ConnectionCounts,
    received_counts: ConnectionCounts,
}

impl Model for Cursor {
    ghost use Rattle.std.specs.Arc.{arc_value};
    ghost use Rattle.merge_order.specs.Fits.{Part};
    ghost use Rattle.merge_order.specs.Glue.{IsCounted};

    ghost Value = { Part };

    ghost view = { λ cursor. record { log = arc_value cursor.log; came = cursor.came } };

    ghost invariant = { λ cursor. IsCounted
        (record { log = arc_value cursor.log; came = cursor.came })
        cursor.sent_counts cursor.received_counts };
}

impl Cursor {
    ghost use Rattle.merge_order.specs.Fits.{sent_so_far, received_so_far};
    ghost use Rattle.merge_order.specs.Glue.{RisesWith, one_further, count_on};
    ghost use Rattle.merge_order.specs.Waits.{sent_by};

    /// At the log's begin.
    pub fn new(alloc: Global, log: &Arc<VatLog>) -> Result<Cursor, AllocError>
        ensures { IfOk result (λ cursor. cursor ≡ record { log = arc_value log.now; came = 0 }) }
    {
        Ok(Cursor {
            log: Arc::try_clone(log)?,
            came: 0,
            sent_counts: ConnectionCounts::new(alloc),
            received_counts: ConnectionCounts::new(alloc),
        })
    }

    /// The vat whose log this is.
    pub fn vat(&self) -> u32
        ensures { result ≡ self.now.log.vat }
    {
        self.log.vat()
    }

    /// The record that comes next.
    pub fn next(&self) -> Option<&Record>
        ensures { option_copied result ≡ slice_get self.now.log.records self.now.came }
    {
        self.log.get(self.came)
    }

    /// Whether all records came.
    pub fn is_used_up(&self) -> bool
        ensures { result ≡ nat_le (length self.now.log.records) self.now.came }
    {
        self.log.len() <= self.came
    }

    /// How many frames were sent on the connection.
    pub fn sent(&self, connection: u32) -> u64
        ensures { result ≡ sent_so_far connection self.now }
    {
        self.sent_counts.of(connection)
    }

    /// How many frames were received on the connection.
    pub fn received(&self, connection: u32) -> u64
        ensures { result ≡ received_so_far connection self.now }
    {
        self.received_counts.of(connection)
    }

    /// Takes the next record, of which there is one; the totals rise with what it sends. It answers the connection on which
    /// the record sends a frame.
    pub fn go_on(&mut self, totals: &mut ConnectionCounts) -> Result<Option<u32>, AllocError>
        requires left { self.old.came < length self.old.log.records }
        // No count is full.
        requires few { self.old.came + 1 < 2 ^ 64 }
        requires roomy { (connection : ℕ) → count_on totals.old connection + 1 < 2 ^ 64 }
        ensures goes { OnOk result (self.new ≡ one_further self.old) }
        ensures adds { OnOk result (RisesWith self.old self.new totals.old totals.new) }
        ensures sent { IfOk result
            (λ sent. sent ≡ sent_by (slice_get self.old.log.records self.old.came)) }
    {
        let Some(event) = self.log.get(self.came) else {
            unreachable!()
        };
        let sent = match event.body() {
            Body::Send { connection, .. } => {
                totals.raise(*connection)?;
                self.sent_counts.raise(*connection)?;
                Some(*connection)
            }
            Body::Receive { connection, .. } => {
                self.received_counts.raise(*connection)?;
                None
            }
            _ => None,
        };
        self.came += 1;
        Ok(sent)
    }
}
