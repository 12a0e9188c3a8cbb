//! How many records vats took, and how many frames passed.

ghost use Rattle.std.specs.Prelude.{◌≡◌, ◌-◌, ◌+◌, ◌<◌, ◌^◌, ℕ, OnOk, OnErr};
ghost use Rattle.turn_taking.specs.Glue.{count_of, sent_count_on, passed_on, AreEmpty, AreRoomy, IsPassed, IsNoted, IsTaken, AreSameTables};

use crate::frame_counts::FrameCounts;
use crate::vat_counts::VatCounts;
use std::alloc::{AllocError, Global};
use std::collections::BTreeMap;
use vat_log::Body;

/// How many records each vat took, and what passed on each connection.
#[derive(Drop)]
pub(crate) struct PassTables {
    alloc: Global,
    records: VatCounts,
    connections: BTreeMap<u32, FrameCounts>,
}

impl PassTables {
    /// Before any turn. It takes no memory.
    pub(crate) fn new(alloc: Global) -> PassTables
        ensures { AreEmpty result }
    {
        PassTables {
            alloc,
            records: VatCounts::new(alloc),
            connections: BTreeMap::new(alloc),
        }
    }

    /// How many more frames were sent on the connection than the vat sent or received there.
    pub(crate) fn under_way(&self, vat: u32, connection: u32) -> u64
        requires { passed_on self.now vat connection < 2 ^ 64 }
        ensures { result ≡ sent_count_on self.now connection - passed_on self.now vat connection }
    {
        match self.connections.get(&connection) {
            Some(frames) => frames.sent().saturating_sub(frames.passed(vat)),
            None => 0,
        }
    }

    /// The vat sends the connection's first frame, or receives it. The only error is that memory ran out, and then nothing
    /// changes.
    #[cold]
    #[inline(never)]
    fn begin(&mut self, vat: u32, connection: u32, sends: bool) -> Result<(), AllocError>
        requires passed { (v : ℕ) → passed_on self.old v connection ≡ 0 }
        requires sent { sent_count_on self.old connection ≡ 0 }
        ensures ok { OnOk result (IsPassed vat connection sends self.old self.new) }
        ensures err { OnErr result (AreSameTables self.old self.new) }
    {
        let frames = FrameCounts::begin(self.alloc, vat, sends);
        self.connections.insert(connection, frames)?;
        Ok(())
    }

    /// The vat sends a frame on the connection, or receives one. The only error is that memory ran out, and then no count
    /// changes.
    #[inline]
    fn pass(&mut self, vat: u32, connection: u32, sends: bool) -> Result<(), AllocError>
        requires { AreRoomy self.old }
        ensures ok { OnOk result (IsPassed vat connection sends self.old self.new) }
        ensures err { OnErr result (AreSameTables self.old self.new) }
    {
        match self.connections.get_mut(&connection) {
            Some(frames) => frames.pass(vat, sends),
            None => self.begin(vat, connection, sends),
        }
    }

    /// The vat's record, if it sends a frame or receives one, does so. The only error is that memory ran out, and then no
    /// count changes.
    fn note(&mut self, vat: u32, body: &Body) -> Result<(), AllocError>
        requires { AreRoomy self.old }
        ensures ok { OnOk result (IsNoted vat body.now self.old self.new) }
        ensures err { OnErr result (AreSameTables self.old self.new) }
    {
        match body {
            Body::Send { connection, .. } => self.pass(vat, *connection, true),
            Body::Receive { connection, .. } => self.pass(vat, *connection, false),
            _ => Ok(()),
        }
    }

    /// The vat takes a record. The only error is that memory ran out, and then no count changes.
    pub(crate) fn take(&mut self, vat: u32, body: &Body) -> Result<(), AllocError>
        requires few { count_of self.old.records vat + 1 < 2 ^ 64 }
        requires roomy { AreRoomy self.old }
        ensures ok { OnOk result (IsTaken vat body.now self.old self.new) }
        ensures err { OnErr result (AreSameTables self.old self.new) }
    {
        self.records.raise(vat)?;
        if self.note(vat, body).is_err() {
            self.records.lower(vat);
            return Err(AllocError);
        }
        Ok(())
    }
}
