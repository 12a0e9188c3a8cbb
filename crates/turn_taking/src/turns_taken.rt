//! The turns that were taken, and what may come next.

ghost use Rattle.std.specs.Prelude.{◌≡◌, [], ◌∷◌, OnOk, OnErr};
ghost use Rattle.turn_taking.specs.Turns.{may_follow, under_way};

use crate::pass_tables::PassTables;
use erased::Erased;
use std::alloc::{AllocError, Global};
use std::marker::Model;
use vat_log::Body;

/// The turns that were taken. Contracts see it as the list of these, each a vat and its record, the newest first. It keeps no
/// record: a number for each vat, for each connection, and for each vat on each of its connections.
pub struct TurnsTaken {
    vats: Erased<u32>,
    records: Erased<Body>,
    count: u64,
    tables: PassTables,
}

impl Drop for TurnsTaken {
    fn drop(self) {
        let Self {
            vats: _,
            records: _,
            count: _,
            tables: _,
        } = self;
    }
}

impl Model for TurnsTaken {
    ghost use Rattle.std.specs.List.{zip};
    ghost use Rattle.turn_taking.specs.Turns.{Turns};
    ghost use Rattle.turn_taking.specs.Glue.{AreTables};

    ghost Value = { Turns };

    ghost view = { λ turns. zip turns.vats.items turns.records.items };

    ghost invariant = { λ turns. AreTables (zip turns.vats.items turns.records.items) turns.count turns.tables };
}

impl TurnsTaken {
    /// Before any turn. It takes no memory.
    pub fn new(alloc: Global) -> TurnsTaken
        ensures { result ≡ [] }
    {
        TurnsTaken {
            vats: Erased::new(),
            records: Erased::new(),
            count: 0,
            tables: PassTables::new(alloc),
        }
    }

    /// How many frames the other vats sent on the connection beyond those that the vat received there.
    pub fn under_way(&self, vat: u32, connection: u32) -> u64
        ensures { result ≡ under_way vat connection self.now }
    {
        self.tables.under_way(vat, connection)
    }

    /// Whether this may be the next record of the vat: a RECV where a frame is under way to it on the connection, any other
    /// record always.
    pub fn may_follow(&self, vat: u32, body: &Body) -> bool
        ensures { result ≡ may_follow self.now vat body.now }
    {
        match body {
            Body::Receive { connection, .. } => self.under_way(vat, *connection) > 0,
            _ => true,
        }
    }

    /// The vat takes a turn with this record, whether or not it may come next.
    ///
    /// # Errors
    ///
    /// Out of memory, also where there were 2^64 - 1 turns; and then nothing changes.
    pub fn take(&mut self, vat: u32, body: &Body) -> Result<(), AllocError>
        ensures ok { OnOk result (self.new ≡ (vat, body.now) ∷ self.old) }
        ensures err { OnErr result (self.new ≡ self.old) }
    {
        let Some(count) = self.count.checked_add(1) else {
            return Err(AllocError);
        };
        self.tables.take(vat, body)?;
        self.vats = self.vats.with(&vat);
        self.records = self.records.with(body);
        self.count = count;
        Ok(())
    }
}
