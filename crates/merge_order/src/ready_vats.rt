//! The vats that are ready to be tried.

ghost use Rattle.std.specs.Prelude.{◌≡◌, ◌<◌, ◌==◌, ◌||◌, ℕ, true, false, if◌then◌else◌, OnOk, OnErr, MatchOption};
ghost use Rattle.std.specs.List.{list_any};
ghost use Rattle.merge_order.specs.Waits.{is_ready, ready_count};

use std::alloc::{AllocError, Global};
use std::collections::BTreeSet;

/// The vats that are ready to be tried, by their numbers.
#[derive(Drop)]
pub struct ReadyVats {
    vats: BTreeSet<u32>,
}

impl ReadyVats {
    /// No vat.
    pub fn new(alloc: Global) -> ReadyVats
        ensures { (vat : ℕ) → is_ready result vat ≡ false }
    {
        ReadyVats {
            vats: BTreeSet::new(alloc),
        }
    }

    /// The smallest vat number.
    pub fn least(&self) -> Option<u32>
        ensures { MatchOption result ((vat : ℕ) → is_ready self.now vat ≡ false)
            (λ least. (is_ready self.now least ≡ true)
            × ((vat : ℕ) → vat < least → is_ready self.now vat ≡ false)) }
    {
        self.vats.first().copied()
    }

    /// This vat is ready too. Where memory is refused, nothing changes.
    pub fn add(&mut self, vat: u32) -> Result<(), AllocError>
        ensures ok { OnOk result ((other : ℕ) →
            is_ready self.new other ≡ (if vat == other then true else is_ready self.old other)) }
        ensures err { OnErr result ((other : ℕ) → is_ready self.new other ≡ is_ready self.old other) }
    {
        self.vats.insert(vat)?;
        Ok(())
    }

    /// These vats are ready too. Where memory is refused, some of them may not be.
    pub fn add_all(&mut self, vats: &[u32]) -> Result<(), AllocError>
        ensures { OnOk result ((vat : ℕ) → is_ready self.new vat
            ≡ (is_ready self.old vat || list_any (λ other. other == vat) vats.now)) }
    {
        for vat in vats {
            self.add(*vat)?;
        }
        Ok(())
    }

    /// This vat, which was ready, is ready no more.
    pub fn remove(&mut self, vat: u32)
        requires { is_ready self.old vat ≡ true }
        ensures others { (other : ℕ) →
            is_ready self.new other ≡ (if vat == other then false else is_ready self.old other) }
        ensures fewer { ready_count self.new < ready_count self.old }
    {
        self.vats.remove(&vat);
    }
}
