//! How often connections came up.

ghost use Rattle.std.specs.Prelude.{◌≡◌, ◌+◌, ◌<◌, ◌^◌, OnOk, OnErr};
ghost use Rattle.merge_order.specs.Glue.{count_on, IsEmpty, IsRaisedByOne, HasSameCounts};

use std::alloc::{AllocError, Global};
use std::collections::BTreeMap;

/// How often each connection came up.
#[derive(Drop)]
pub struct ConnectionCounts {
    counts: BTreeMap<u32, u64>,
}

impl ConnectionCounts {
    /// Before any came up.
    pub fn new(alloc: Global) -> ConnectionCounts
        ensures { IsEmpty result }
    {
        ConnectionCounts {
            counts: BTreeMap::new(alloc),
        }
    }

    /// None came up any more.
    pub fn clear(&mut self)
        ensures { IsEmpty self.new }
    {
        self.counts.clear();
    }

    /// How often this connection came up.
    pub fn of(&self, connection: u32) -> u64
        ensures { result ≡ count_on self.now connection }
    {
        self.counts.get(&connection).copied().unwrap_or(0)
    }

    /// This connection came up once more, and no count is full. Where memory is refused, nothing changes.
    pub fn raise(&mut self, connection: u32) -> Result<(), AllocError>
        requires { count_on self.old connection + 1 < 2 ^ 64 }
        ensures ok { OnOk result (IsRaisedByOne connection self.old self.new) }
        ensures err { OnErr result (HasSameCounts self.old self.new) }
    {
        match self.counts.get_mut(&connection) {
            Some(count) => {
                *count += 1;
                Ok(())
            }
            None => self.begin(connection),
        }
    }

    /// This connection came up for the first time. Where memory is refused, nothing changes.
    #[cold]
    #[inline(never)]
    fn begin(&mut self, connection: u32) -> Result<(), AllocError>
        requires { count_on self.old connection ≡ 0 }
        ensures ok { OnOk result (IsRaisedByOne connection self.old self.new) }
        ensures err { OnErr result (HasSameCounts self.old self.new) }
    {
        self.counts.insert(connection, 1)?;
        Ok(())
    }
}
