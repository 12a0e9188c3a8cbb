//! What passed on a connection.

ghost use Rattle.std.specs.Prelude.{◌≡◌, ◌+◌, ◌<◌, ◌^◌, OnOk, OnErr};
ghost use Rattle.turn_taking.specs.Glue.{passed_at, passed_of, IsBegun, IsRaisedFrames, IsPassedFrames, IsSameFrames};

use crate::vat_counts::VatCounts;
use std::alloc::{AllocError, Global};

/// One end of a connection: a vat, and how many frames it sent or received there.
#[derive(Clone, Copy)]
struct EndCount {
    vat: u32,
    passed: u64,
}

impl EndCount {
    /// How many frames the vat sent or received at this end: none at another vat's.
    fn of(&self, vat: u32) -> u64
        ensures { result ≡ passed_at self.now vat }
    {
        if self.vat == vat { self.passed } else { 0 }
    }
}

/// What passed on a connection, of which vats mostly are at two ends.
#[derive(Drop)]
pub(crate) struct FrameCounts {
    /// How many frames were sent, by whichever vat.
    sent: u64,
    first: EndCount,
    second: Option<EndCount>,
    others: VatCounts,
}

impl FrameCounts {
    /// A vat sends the first frame, or receives it. It takes no memory.
    pub(crate) fn begin(alloc: Global, vat: u32, sends: bool) -> FrameCounts
        ensures { IsBegun vat sends result }
    {
        FrameCounts {
            sent: u64::from(sends),
            first: EndCount { vat, passed: 1 },
            second: None,
            others: VatCounts::new(alloc),
        }
    }

    /// How many frames were sent, by whichever vat.
    pub(crate) fn sent(&self) -> u64
        ensures { result ≡ self.now.sent }
    {
        self.sent
    }

    /// How many frames the vat sent or received.
    pub(crate) fn passed(&self, vat: u32) -> u64
        requires { passed_of self.now vat < 2 ^ 64 }
        ensures { result ≡ passed_of self.now vat }
    {
        let second = match &self.second {
            Some(end) => end.of(vat),
            None => 0,
        };
        self.first.of(vat) + second + self.others.of(vat)
    }

    /// The vat sent or received one frame more, and no count is full. The only error is that memory ran out, and then nothing
    /// changes.
    fn raise(&mut self, vat: u32) -> Result<(), AllocError>
        requires { passed_of self.old vat + 1 < 2 ^ 64 }
        ensures ok { OnOk result (IsRaisedFrames vat self.old self.new) }
        ensures err { OnErr result (IsSameFrames self.old self.new) }
    {
        if self.first.vat == vat {
            self.first.passed += 1;
            return Ok(());
        }
        match &mut self.second {
            None => self.second = Some(EndCount { vat, passed: 1 }),
            Some(end) if end.vat == vat => end.passed += 1,
            Some(_) => self.others.raise(vat)?,
        }
        Ok(())
    }

    /// The vat sends a frame, or receives one, and no count is full. The only error is that memory ran out, and then nothing
    /// changes.
    pub(crate) fn pass(&mut self, vat: u32, sends: bool) -> Result<(), AllocError>
        requires room { passed_of self.old vat + 1 < 2 ^ 64 }
        requires few { self.old.sent + 1 < 2 ^ 64 }
        ensures ok { OnOk result (IsPassedFrames vat sends self.old self.new) }
        ensures err { OnErr result (IsSameFrames self.old self.new) }
    {
        self.raise(vat)?;
        if sends {
            self.sent += 1;
        }
        Ok(())
    }
}
