//! The names of calls that came to a vat and haven't left it.

ghost use Rattle.std.specs.Prelude.{◌≡◌, ℕ, None, OnOk};
ghost use Rattle.call_order.specs.Glue.Names.{name_come, name_in, IsCome, IsLeft};

use run_model::Name;
use std::alloc::{AllocError, Global};
use std::collections::BTreeMap;

/// The names of the calls that came from other vats and are still there, by the vat and its number of the call.
#[derive(Drop)]
pub(crate) struct Names {
    came: BTreeMap<(u32, u64), Name>,
}

impl Names {
    /// Before any call came.
    pub(crate) fn new(alloc: Global) -> Names
        ensures { (v c : ℕ) → name_come result v c ≡ None }
    {
        Names {
            came: BTreeMap::new(alloc),
        }
    }

    /// A call comes to a vat with this name.
    pub(crate) fn come(&mut self, vat: u32, call: u64, name: Name) -> Result<(), AllocError>
        ensures { OnOk result (IsCome vat call name self.old self.new) }
    {
        self.came.insert((vat, call), name)?;
        Ok(())
    }

    /// A call leaves a vat: its name is the one with which it came, or else that of a call of the vat's own.
    pub(crate) fn leave(&mut self, vat: u32, call: u64) -> Name
        ensures name { result ≡ name_in self.old vat call }
        ensures left { IsLeft vat call self.old self.new }
    {
        match self.came.remove(&(vat, call)) {
            Some(name) => name,
            None => Name {
                maker: vat,
                number: call,
            },
        }
    }
}
