//! Numbers that were seen.

ghost use Rattle.std.specs.Prelude.{◌≡◌, ◌==◌, ℕ, OnOk, IfOk, true, false, not, if◌then◌else◌};
ghost use Rattle.vat_view.specs.Glue.Seen.{has_in};

use std::alloc::{AllocError, Global};
use std::collections::BTreeMap;

/// The references that were met so far.
#[derive(Drop)]
pub(crate) struct ReferenceSet {
    entries: BTreeMap<u64, ()>,
}

impl ReferenceSet {
    /// Before any is met.
    pub(crate) fn new(alloc: Global) -> ReferenceSet
        ensures { (q : ℕ) → has_in result q ≡ false }
    {
        ReferenceSet {
            entries: BTreeMap::new(alloc),
        }
    }

    /// Meets a reference, and answers whether it is met for the first time.
    pub(crate) fn meet(&mut self, reference: u64) -> Result<bool, AllocError>
        ensures met { OnOk result
            ((q : ℕ) → has_in self.new q ≡ (if reference == q then true else has_in self.old q)) }
        ensures first { IfOk result (λ first. first ≡ not (has_in self.old reference)) }
    {
        let first = !self.entries.contains_key(&reference);
        self.entries.insert(reference, ())?;
        Ok(first)
    }
}
