//! The order of calls, as vats take turns.

ghost use Rattle.std.specs.Prelude.{◌≡◌, ◌∷◌, [], List, Option, Some, None, OnOk, OnErr, option_map};
ghost use Rattle.call_order.specs.Fault.{IsFaultBy};
ghost use Rattle.turn_taking.specs.Turns.{Turns, AreAll, order_of};
ghost use Rattle.vat_log.specs.Log.{Log};

use crate::deeds::deed_of;
use crate::order_tables::OrderTables;
use crate::taken_counts::TakenCounts;
use erased::Erased;
use std::alloc::{AllocError, Global};
use std::marker::Model;
use vat_log::Body;

/// The order of calls, as vats take turns, each with the next record of its log. It keeps what is under way, and no record.
/// Contracts see it as the turns so far, the newest first; as none, once memory was refused.
pub struct CallOrder {
    tables: OrderTables,
    counts: TakenCounts,
    vats: Erased<u32>,
    records: Erased<Body>,
    is_refused: bool,
}

impl Drop for CallOrder {
    fn drop(self) {
        let Self {
            tables: _,
            counts: _,
            vats: _,
            records: _,
            is_refused: _,
        } = self;
    }
}

impl Model for CallOrder {
    ghost use Rattle.std.specs.Prelude.{◌≡◌, false, Option};
    ghost use Rattle.std.specs.List.{zip};
    ghost use Rattle.call_order.specs.Glue.Reached.{turns_unless, IsReached};
    ghost use Rattle.turn_taking.specs.Turns.{Turns};

    ghost Value = { Option Turns };

    ghost view = { λ calls. turns_unless calls.is_refused calls.vats.items calls.records.items };

    ghost invariant = { λ calls. calls.is_refused ≡ false
        → IsReached (zip calls.vats.items calls.records.items) calls.tables calls.counts };
}

impl CallOrder {
    /// Before any turn. It takes no memory.
    pub fn new(alloc: Global) -> CallOrder
        ensures { result ≡ Some [] }
    {
        CallOrder {
            tables: OrderTables::new(alloc),
            counts: TakenCounts::new(alloc),
            vats: Erased::new(),
            records: Erased::new(),
            is_refused: false,
        }
    }

    /// A vat takes its turn, with the next record of its log.
    ///
    /// # Errors
    ///
    /// Out of memory, now or at an earlier turn: once a turn is refused, so is each one after it. A vat's record behind
    /// 4,294,967,295 others is refused too.
    pub fn take(&mut self, vat: u32, body: &Body) -> Result<(), AllocError>
        ensures ok { OnOk result (self.new ≡ option_map (λ turns. (vat, body.now) ∷ turns) self.old) }
        ensures err { OnErr result (self.new ≡ None) }
    {
        if self.is_refused {
            return Err(AllocError);
        }
        self.is_refused = true;
        let number = self.counts.next(vat)?;
        self.tables.apply(vat, number, deed_of(body))?;
        self.vats = self.vats.with(&vat);
        self.records = self.records.with(body);
        self.is_refused = false;
        Ok(())
    }

    /// Where the run of good logs breaks the order of calls, by the order in which the vats took their turns: a step that
    /// delivers a call although another, which was made before it through the same reference, is delivered only later. The
    /// step is told by its vat and by how many records of that vat stand before its own; of several the one of the smallest
    /// vat, and then the first. None where the run keeps the order. It holds once all records of the logs are taken; where
    /// the logs don't name a run by the order, since one isn't good, say, or the order doesn't fit, the answer says nothing.
    pub fn fault(&self) -> Option<(u32, u32)>
        ensures { (logs : List Log) (turns : Turns) → self.now ≡ Some turns → AreAll logs turns
            → IsFaultBy logs (order_of turns) result }
    {
        self.tables.told.fault()
    }
}
