//! Promises: which introductions belong together.

use rising_table::RisingTable;
use std::alloc::{AllocError, Global};

/// The promises of one end by groups: the introductions of a number up to its Resolve are one, and the next introduction
/// behind that begins another.
#[derive(Drop)]
pub struct Groups {
    /// The group of a number that has had no Resolve.
    without_resolve: RisingTable<Option<usize>>,
    /// The frame of each group's Resolve.
    resolves: Vec<Option<usize>>,
}

impl Groups {
    /// No groups.
    pub(crate) fn new(alloc: Global) -> Groups {
        Groups {
            without_resolve: RisingTable::new(alloc),
            resolves: Vec::new(alloc),
        }
    }

    /// The group of an introduction of this number.
    pub(crate) fn introduced(&mut self, number: u32) -> Result<usize, AllocError> {
        let key = u64::from(number);
        if let Some(Some(group)) = self.without_resolve.get(key) {
            return Ok(*group);
        }
        let group = self.resolves.len();
        self.resolves.push(None)?;
        self.without_resolve.put(key, Some(group))?;
        Ok(group)
    }

    /// The group that the Resolve of this number, the frame of this place, ends.
    pub(crate) fn resolved(&mut self, number: u32, frame: usize) -> Option<usize> {
        let group = self.without_resolve.replace(u64::from(number), None)??;
        if let Some(resolve) = self.resolves.get_mut(group) {
            *resolve = Some(frame);
        }
        Some(group)
    }

    /// The place of a group's Resolve among the frames, if one comes.
    pub fn resolve(&self, group: usize) -> Option<usize> {
        self.resolves.get(group).copied().unwrap_or(None)
    }
}
