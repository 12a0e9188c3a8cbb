//! The calls that aren't delivered, and what is found so far.

ghost use Rattle.std.specs.Prelude.{◌≡◌, None, Some, OnOk, OnErr};
ghost use Rattle.undelivered.specs.Glue.{AreEmpty, IsMade, IsDelivered, AreSameTables, wait_of};

use crate::place_order::lesser;
use crate::waits::{Waits, lower_before};
use std::alloc::{AllocError, Global};
use std::collections::BTreeMap;

/// The calls that aren't delivered, and the least place so far where one was delivered too early.
#[derive(Drop)]
pub(crate) struct WaitTables {
    /// Of each call its reference and its turn.
    turns: BTreeMap<u64, (u64, u64)>,
    waiting: Waits,
    fault: Option<(u32, u32)>,
}

impl WaitTables {
    /// Before any call. It takes no memory.
    pub(crate) fn new(alloc: Global) -> WaitTables
        ensures { AreEmpty result }
    {
        WaitTables {
            turns: BTreeMap::new(alloc),
            waiting: BTreeMap::new(alloc),
            fault: None,
        }
    }

    /// The least place so far where a call was delivered too early.
    pub(crate) fn fault(&self) -> Option<(u32, u32)>
        ensures { result ≡ self.now.fault }
    {
        self.fault
    }

    /// A call is made through a reference, and gets this turn. The only error is that memory ran out; then the tables say
    /// what they said, where no call had the turn.
    pub(crate) fn make(&mut self, call: u64, reference: u64, turn: u64) -> Result<(), AllocError>
        ensures ok { OnOk result (IsMade call reference turn self.old self.new) }
        ensures err { OnErr result (wait_of self.old reference turn ≡ None → AreSameTables self.old self.new) }
    {
        self.waiting.insert((reference, turn), None)?;
        if self.turns.insert(call, (reference, turn)).is_err() {
            let _ = self.waiting.remove(&(reference, turn));
            return Err(AllocError);
        }
        Ok(())
    }

    /// A call is delivered at this place. It takes no memory.
    pub(crate) fn deliver(&mut self, call: u64, place: (u32, u32))
        ensures { IsDelivered call place self.old self.new }
    {
        let Some((reference, turn)) = self.turns.remove(&call) else {
            return;
        };
        let Some(until) = self.waiting.remove(&(reference, turn)) else {
            return;
        };
        self.fault = lesser(self.fault, until);
        lower_before(&mut self.waiting, reference, turn, place);
    }
}
