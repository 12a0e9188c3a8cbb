//! The vats that wait for a frame.

ghost use Rattle.std.specs.Prelude.{◌≡◌, ◌==◌, ◌||◌, ◌++◌, ℕ, [], ◌∷◌, if◌then◌else◌, OnOk, OnErr};
ghost use Rattle.merge_order.specs.Waits.{is_ready, waiting_on, waits};

use crate::ready_vats::ReadyVats;
use std::alloc::{AllocError, Global};
use std::collections::BTreeMap;

/// The vats that wait for a frame, by the connection on which they wait.
#[derive(Drop)]
pub struct WaitingVats {
    alloc: Global,
    vats: BTreeMap<u32, Vec<u32>>,
}

impl WaitingVats {
    /// No vat waits.
    pub fn new(alloc: Global) -> WaitingVats
        ensures { (connection : ℕ) → waiting_on result connection ≡ [] }
    {
        WaitingVats {
            alloc,
            vats: BTreeMap::new(alloc),
        }
    }

    /// This vat waits on this connection too. Where memory is refused, nothing changes.
    pub fn add(&mut self, connection: u32, vat: u32) -> Result<(), AllocError>
        ensures ok { OnOk result ((on : ℕ) → waiting_on self.new on
            ≡ (if connection == on then waiting_on self.old on ++ vat ∷ []
            else waiting_on self.old on)) }
        ensures err { OnErr result ((on : ℕ) → waiting_on self.new on ≡ waiting_on self.old on) }
    {
        match self.vats.get_mut(&connection) {
            Some(vats) => vats.push(vat)?,
            None => {
                let vats = vec![in self.alloc; vat]?;
                self.vats.insert(connection, vats)?;
            }
        }
        Ok(())
    }

    /// The vats that wait on this connection are ready, and none waits there any more. Where memory is refused, some of them
    /// may be neither.
    pub fn wake(&mut self, connection: u32, ready: &mut ReadyVats) -> Result<(), AllocError>
        ensures woken { OnOk result ((vat : ℕ) → is_ready ready.new vat
            ≡ (is_ready ready.old vat || waits self.old connection vat)) }
        ensures left { (on : ℕ) → waiting_on self.new on
            ≡ (if connection == on then [] else waiting_on self.old on) }
    {
        let Some(vats) = self.vats.get_mut(&connection) else {
            return Ok(());
        };
        let woken = ready.add_all(vats);
        vats.clear();
        woken
    }
}
