//! How often vats came up.

ghost use Rattle.std.specs.Prelude.{◌≡◌, ◌+◌, ◌<◌, ◌^◌, OnOk, OnErr};
ghost use Rattle.turn_taking.specs.Glue.{count_of, AreEmptyCounts, IsRaised, HaveSameCounts};

use std::alloc::{AllocError, Global};
use std::collections::BTreeMap;

/// How often each vat came up.
#[derive(Drop)]
pub(crate) struct VatCounts {
    counts: BTreeMap<u32, u64>,
}

impl VatCounts {
    /// Before any came up. It takes no memory.
    pub(crate) fn new(alloc: Global) -> VatCounts
        ensures { AreEmptyCounts result }
    {
        VatCounts {
            counts: BTreeMap::new(alloc),
        }
    }

    /// How often this vat came up.
    pub(crate) fn of(&self, vat: u32) -> u64
        ensures { result ≡ count_of self.now vat }
    {
        self.counts.get(&vat).copied().unwrap_or(0)
    }

    /// This vat came up once more, and its count isn't full. The only error is that memory ran out, and then no count changes.
    #[inline]
    pub(crate) fn raise(&mut self, vat: u32) -> Result<(), AllocError>
        requires { count_of self.old vat + 1 < 2 ^ 64 }
        ensures ok { OnOk result (IsRaised vat self.old self.new) }
        ensures err { OnErr result (HaveSameCounts self.old self.new) }
    {
        match self.counts.get_mut(&vat) {
            Some(count) => {
                *count += 1;
                Ok(())
            }
            None => self.begin(vat),
        }
    }

    /// This vat came up for the first time. The only error is that memory ran out, and then no count changes.
    #[cold]
    #[inline(never)]
    fn begin(&mut self, vat: u32) -> Result<(), AllocError>
        requires { count_of self.old vat ≡ 0 }
        ensures ok { OnOk result (IsRaised vat self.old self.new) }
        ensures err { OnErr result (HaveSameCounts self.old self.new) }
    {
        self.counts.insert(vat, 1)?;
        Ok(())
    }

    /// This vat, which came up, came up once less. It takes no memory.
    pub(crate) fn lower(&mut self, vat: u32)
        requires { 0 < count_of self.old vat }
        ensures { IsRaised vat self.new self.old }
    {
        if let Some(count) = self.counts.get_mut(&vat) {
            *count -= 1;
        }
    }
}
