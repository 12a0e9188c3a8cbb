//! The names of a vat's calls.

ghost use Rattle.std.specs.Prelude.{◌≡◌, ◌==◌, ℕ, Some, None, OnOk, if◌then◌else◌};
ghost use Rattle.call_trace.specs.Glue.Ledgers.{name_at};

use rising_table::RisingTable;
use run_model::Name;
use std::alloc::{AllocError, Global};

/// The name of each call that a vat's records bind, by the vat's own number of it. Most calls are bound by rising numbers.
#[derive(Drop)]
pub(crate) struct CallNames {
    entries: RisingTable<Name>,
}

impl CallNames {
    /// Before any call is bound.
    pub(crate) fn new(alloc: Global) -> CallNames
        ensures { (c : ℕ) → name_at result c ≡ None }
    {
        CallNames {
            entries: RisingTable::new(alloc),
        }
    }

    /// The name of this call, if it is bound.
    pub(crate) fn of(&self, call: u64) -> Option<Name>
        ensures { result ≡ name_at self.now call }
    {
        self.entries.get(call).copied()
    }

    /// This call has this name.
    pub(crate) fn bind(&mut self, call: u64, name: Name) -> Result<(), AllocError>
        ensures { OnOk result ((c : ℕ)
            → name_at self.new c ≡ (if call == c then Some name else name_at self.old c)) }
    {
        self.entries.put(call, name)
    }
}
