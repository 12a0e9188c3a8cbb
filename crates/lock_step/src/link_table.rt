//! The links of a case by their connections.

ghost use Rattle.std.specs.Prelude.{◌≡◌, ℕ, None, OnOk, OnErr};
ghost use Rattle.std.specs.Option.{option_copied};
ghost use Rattle.lock_step.specs.Glue.{state_on, IsAdded, IsLinkPassed, AreSameStates};

use crate::link_state::LinkState;
use case_book::Link;
use std::alloc::{AllocError, Global};
use std::collections::BTreeMap;
use vat_log::Body;

/// The links of a case while turns are taken, by their connections.
#[derive(Drop)]
pub(crate) struct LinkTable {
    states: BTreeMap<u32, LinkState>,
}

impl LinkTable {
    /// No links. It takes no memory.
    pub(crate) fn new(alloc: Global) -> LinkTable
        ensures { (k : ℕ) → state_on result k ≡ None }
    {
        LinkTable {
            states: BTreeMap::new(alloc),
        }
    }

    /// Adds a link before any turn, if its ends are two vats and its connection has none yet. The only error is that memory ran
    /// out.
    pub(crate) fn add(&mut self, alloc: Global, link: &Link) -> Result<(), AllocError>
        ensures { OnOk result (IsAdded link.now self.old self.new) }
    {
        if link.a == link.b || self.states.contains_key(&link.connection) {
            return Ok(());
        }
        self.states
            .insert(link.connection, LinkState::new(alloc, link))?;
        Ok(())
    }

    /// What is kept of a connection.
    pub(crate) fn on(&self, connection: u32) -> Option<&LinkState>
        ensures { option_copied result ≡ state_on self.now connection }
    {
        self.states.get(&connection)
    }

    /// A vat takes a record. The only error is that memory ran out, and then nothing changes.
    pub(crate) fn pass(&mut self, vat: u32, body: &Body) -> Result<(), AllocError>
        ensures ok { OnOk result (IsLinkPassed vat body.now self.old self.new) }
        ensures err { OnErr result (AreSameStates self.old self.new) }
    {
        let Some((_, connection)) = body.passage() else {
            return Ok(());
        };
        match self.states.get_mut(&connection) {
            Some(state) => state.pass(vat, body),
            None => Ok(()),
        }
    }
}
