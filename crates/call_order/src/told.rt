//! What was told of the calls of each vat.

ghost use Rattle.std.specs.Prelude.{◌≡◌, ℕ, [], OnOk};
ghost use Rattle.call_order.specs.Glue.Told.{calls_told, IsToldMore, AreAllOnce, IsFaultIn};

use std::alloc::{AllocError, Global};
use std::collections::BTreeMap;
use undelivered::{Moment, Undelivered, lesser};

/// What was told of the calls that each vat made.
#[derive(Drop)]
pub(crate) struct Told {
    alloc: Global,
    vats: BTreeMap<u32, Undelivered>,
}

impl Told {
    /// Before anything is told.
    pub(crate) fn new(alloc: Global) -> Told
        ensures { (v : ℕ) → calls_told result v ≡ [] }
    {
        Told {
            alloc,
            vats: BTreeMap::new(alloc),
        }
    }

    /// Tells what becomes of a call of a vat.
    pub(crate) fn tell(&mut self, vat: u32, moment: &Moment) -> Result<(), AllocError>
        ensures { OnOk result (IsToldMore vat moment.now self.old self.new) }
    {
        match self.vats.get_mut(&vat) {
            Some(calls) => calls.take(moment),
            None => {
                let mut calls = Undelivered::new(self.alloc);
                calls.take(moment)?;
                self.vats.insert(vat, calls)?;
                Ok(())
            }
        }
    }

    /// The least place where a call of one of the vats was delivered too early.
    pub(crate) fn fault(&self) -> Option<(u32, u32)>
        ensures { AreAllOnce self.now → IsFaultIn self.now result }
    {
        let mut least = None;
        for calls in self.vats.values() {
            least = lesser(least, calls.fault());
        }
        least
    }
}
