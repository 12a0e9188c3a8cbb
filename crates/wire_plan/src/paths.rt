//! Paths by numbers.

use cap_frame::Path;
use std::alloc::{AllocError, Global};
use std::collections::BTreeMap;

/// The paths that both files name, each with a number. The path without pointer fields is number 0.
#[derive(Drop)]
pub struct Paths {
    numbers: BTreeMap<Vec<u16>, u32>,
    paths: Vec<Path>,
}

impl Paths {
    /// No paths but the one without pointer fields.
    pub(crate) fn new(alloc: Global) -> Result<Paths, AllocError> {
        let mut paths = Vec::new(alloc);
        paths.push(Path::from_slice(alloc, &[])?)?;
        Ok(Paths {
            numbers: BTreeMap::new(alloc),
            paths,
        })
    }

    /// The number of a path, which it gets where it has none.
    pub(crate) fn number(&mut self, alloc: Global, path: &Path) -> Result<u32, AllocError> {
        if path.as_slice().is_empty() {
            return Ok(0);
        }
        if let Some(number) = self.numbers.get(path.as_slice()) {
            return Ok(*number);
        }
        let number = u32::try_from(self.paths.len()).unwrap_or(u32::MAX);
        self.numbers
            .insert(Vec::from_slice(alloc, path.as_slice())?, number)?;
        self.paths.push(path.copy()?)?;
        Ok(number)
    }

    /// The path of a number; the one without pointer fields where it has none.
    pub fn path(&self, alloc: Global, number: u32) -> Result<Path, AllocError> {
        match self.paths.get(number as usize) {
            Some(path) => path.copy(),
            None => Path::from_slice(alloc, &[]),
        }
    }
}
