//! How many records each vat took.

ghost use Rattle.std.specs.Prelude.{◌≡◌, ◌==◌, ◌+◌, ℕ, if◌then◌else◌, IfOk, OnOk};
ghost use Rattle.call_order.specs.Glue.Counts.{taken_count};

use std::alloc::{AllocError, Global};
use std::collections::BTreeMap;

/// How many records each vat took.
#[derive(Drop)]
pub(crate) struct TakenCounts {
    vats: BTreeMap<u32, u32>,
}

impl TakenCounts {
    /// Before any record.
    pub(crate) fn new(alloc: Global) -> TakenCounts
        ensures { (v : ℕ) → taken_count result v ≡ 0 }
    {
        TakenCounts {
            vats: BTreeMap::new(alloc),
        }
    }

    /// A vat takes one record more: its number, counted from 0. It is refused as if memory were, where a vat takes more than
    /// 4,294,967,295 records, which no log has.
    pub(crate) fn next(&mut self, vat: u32) -> Result<u32, AllocError>
        ensures number { IfOk result (λ number. number ≡ taken_count self.old vat) }
        ensures counts { OnOk result ((v : ℕ) → taken_count self.new v
            ≡ (if vat == v then taken_count self.old v + 1 else taken_count self.old v)) }
    {
        match self.vats.get_mut(&vat) {
            Some(count) => {
                let number = *count;
                *count = number.checked_add(1).ok_or(AllocError)?;
                Ok(number)
            }
            None => {
                self.vats.insert(vat, 1)?;
                Ok(0)
            }
        }
    }
}
