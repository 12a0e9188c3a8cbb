//! Several logs, each with how many of its records came already.

ghost use Rattle.std.specs.Prelude.{◌≡◌, ◌+◌, ◌<◌, ◌^◌, ℕ, true, Some, None, [], length, map, is_some, IfOk, OnOk, OnErr, MatchOption, slice_index_or};
ghost use Rattle.std.specs.Arc.{arc_value};
ghost use Rattle.std.specs.Option.{option_copied};

use crate::connection_counts::ConnectionCounts;
use crate::cursor::Cursor;
use crate::ready_vats::ReadyVats;
use std::alloc::{AllocError, Global};
use std::marker::Model;
use std::sync::Arc;
use vat_log::{Body, VatLog};

/// Several logs by rising vat numbers, each with how many of its records came already, and how many frames all the vats
/// sent on each connection by then.
#[derive(Drop)]
pub struct Progress {
    cursors: Vec<Cursor>,
    totals: ConnectionCounts,
    /// The place of the cursor that went on last: mostly the next one that is asked for.
    last: usize,
}

impl Model for Progress {
    ghost use Rattle.std.specs.Prelude.{List};
    ghost use Rattle.merge_order.specs.Fits.{Part};
    ghost use Rattle.merge_order.specs.Glue.{IsTotalled};

    ghost Value = { List Part };

    ghost view = { λ progress. progress.cursors.items };

    ghost invariant = { λ progress. IsTotalled progress.cursors.items progress.totals };
}

impl Progress {
    ghost use Rattle.merge_order.specs.Fits.{Part, IsRising, begin, part_of, sent_by_the_others, may_come, after, used_up};
    ghost use Rattle.merge_order.specs.Glue.{came_by_all};
    ghost use Rattle.merge_order.specs.Waits.{is_ready, next_of, awaited_connection, sent_by};

    /// Before the first step.
    pub fn new(alloc: Global, logs: &[Arc<VatLog>]) -> Result<Progress, AllocError>
        requires { IsRising (map arc_value logs.now) }
        ensures { IfOk result (λ progress. progress ≡ begin (map arc_value logs.now)) }
    {
        let mut cursors = Vec::new(alloc);
        for log in logs {
            cursors.push(Cursor::new(alloc, log)?)?;
        }
        Ok(Progress {
            cursors,
            totals: ConnectionCounts::new(alloc),
            last: 0,
        })
    }

    /// The place of this vat's cursor.
    fn place_of(&self, vat: u32) -> Option<usize>
        ensures { MatchOption result (part_of vat self.now ≡ None) (λ at. (at < length self.now)
            × ((default : Part) → (slice_index_or self.now at default).log.vat ≡ vat)) }
    {
        match self.cursors.get(self.last) {
            Some(cursor) if cursor.vat() == vat => Some(self.last),
            _ => self
                .cursors
                .binary_search_by_key(&vat, |cursor| cursor.vat())
                .ok(),
        }
    }

    /// This vat's cursor.
    fn find(&self, vat: u32) -> Option<&Cursor>
        ensures { option_copied result ≡ part_of vat self.now }
    {
        let at = self.place_of(vat)?;
        Some(&self.cursors[at])
    }

    /// The vat numbers of these logs.
    pub fn vats(&self, alloc: Global) -> Result<ReadyVats, AllocError>
        ensures { IfOk result (λ ready. (vat : ℕ) → is_ready ready vat
            ≡ is_some (part_of vat self.now)) }
    {
        let mut ready = ReadyVats::new(alloc);
        for cursor in &self.cursors {
            ready.add(cursor.vat())?;
        }
        Ok(ready)
    }

    /// The connection on which the next record of this vat receives a frame.
    pub fn awaited(&self, vat: u32) -> Option<u32>
        ensures { result ≡ awaited_connection (next_of vat self.now) }
    {
        match self.find(vat)?.next()?.body() {
            Body::Receive { connection, .. } => Some(*connection),
            _ => None,
        }
    }

    /// How many frames the other vats sent on the connection. The vat's own cursor is one of these.
    fn sent_by_others(&self, own: &Cursor, connection: u32) -> u64
        requires { part_of own.now.log.vat self.now ≡ Some own.now }
        ensures { result ≡ sent_by_the_others own.now.log.vat connection self.now }
    {
        self.totals.of(connection) - own.sent(connection)
    }

    /// Whether the next record of this cursor, which is one of these, may come.
    #[tactic(auto, unfolding(crate::specs::Fits::may_come))]
    fn may_go_on(&self, own: &Cursor) -> bool
        requires { part_of own.now.log.vat self.now ≡ Some own.now }
        ensures { result ≡ may_come self.now own.now.log.vat }
    {
        let Some(event) = own.next() else {
            return false;
        };
        match event.body() {
            Body::Receive { connection, .. } => {
                own.received(*connection) < self.sent_by_others(own, *connection)
            }
            _ => true,
        }
    }

    /// Whether the next record of this vat may come.
    #[tactic(auto, unfolding(crate::specs::Fits::may_come))]
    pub fn may_come(&self, vat: u32) -> bool
        ensures { result ≡ may_come self.now vat }
    {
        let Some(own) = self.find(vat) else {
            return false;
        };
        self.may_go_on(own)
    }

    /// Takes the next record of this vat, which may come, and answers the connection on which it sends a frame. Where memory
    /// is refused, nothing is left of the progress.
    pub fn take(&mut self, vat: u32) -> Result<Option<u32>, AllocError>
        requires may { may_come self.old vat ≡ true }
        // No count is full.
        requires few { came_by_all self.old + 1 < 2 ^ 64 }
        ensures later { OnOk result (self.new ≡ after vat self.old) }
        ensures count { OnOk result (came_by_all self.new ≡ came_by_all self.old + 1) }
        ensures sent { IfOk result (λ sent. sent ≡ sent_by (next_of vat self.old)) }
        ensures err { OnErr result (self.new ≡ []) }
    {
        let Some(at) = self.place_of(vat) else {
            unreachable!()
        };
        self.last = at;
        match self.cursors[at].go_on(&mut self.totals) {
            Ok(sent) => Ok(sent),
            Err(error) => {
                self.cursors.clear();
                self.totals.clear();
                Err(error)
            }
        }
    }

    /// Nothing is left of the progress, which has no logs any more.
    pub fn clear(&mut self)
        ensures { self.new ≡ [] }
    {
        self.cursors.clear();
        self.totals.clear();
    }

    /// Whether all records came.
    #[tactic(auto, unfolding(crate::specs::Fits::used_up))]
    pub fn is_used_up(&self) -> bool
        ensures { result ≡ used_up self.now }
    {
        self.cursors.iter().all(|cursor| cursor.is_used_up())
    }
}
