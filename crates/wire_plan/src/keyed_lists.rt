//! Lists by keys.

use std::alloc::{AllocError, Global};
use std::collections::BTreeMap;

/// A list for each key.
#[derive(Drop)]
pub(crate) struct KeyedLists<K: Ord, T> {
    lists: BTreeMap<K, Vec<T>>,
}

impl<K: Ord + Copy, T: Copy + PartialEq> KeyedLists<K, T> {
    /// Empty lists.
    pub(crate) fn new(alloc: Global) -> KeyedLists<K, T> {
        KeyedLists {
            lists: BTreeMap::new(alloc),
        }
    }

    /// Puts an item behind the others of its key.
    pub(crate) fn put(&mut self, alloc: Global, key: K, item: T) -> Result<(), AllocError> {
        self.lists
            .entry(key)?
            .or_insert(Vec::new(alloc))
            .push(item)?;
        Ok(())
    }

    /// Puts an item behind the others of its key, unless it is among them.
    pub(crate) fn put_once(&mut self, alloc: Global, key: K, item: T) -> Result<(), AllocError> {
        if self.of(key).contains(&item) {
            return Ok(());
        }
        self.put(alloc, key, item)
    }

    /// The items of a key.
    pub(crate) fn of(&self, key: K) -> &[T] {
        match self.lists.get(&key) {
            Some(list) => list.as_slice(),
            None => &[],
        }
    }
}
