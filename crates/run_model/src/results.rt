//! Capabilities at paths.

ghost use Rattle.std.specs.Prelude.{◌≡◌, IfOk};

use crate::cap::Cap;
use cap_frame::Path;
use std::alloc::AllocError;
use std::marker::Model;

/// The capabilities in a call's results, each with its path: pointer fields from the root of the results on (rpc.capnp,
/// `Payload.content`). Contracts see them as the list of these.
#[derive(Debug, Drop)]
pub struct Results {
    results: Vec<(Path, Cap)>,
}

impl Model for Results {
    ghost use Rattle.std.specs.Prelude.{List, ℕ};
    ghost use Rattle.run_model.specs.declared.cap.Cap.{Cap};

    ghost Value = { List (List ℕ × Cap) };

    ghost view = { λ results. results.results.items };
}

impl Results {
    /// The list of these. It takes no memory.
    pub fn new(results: Vec<(Path, Cap)>) -> Results
        ensures { result ≡ results.items }
    {
        Results { results }
    }

    /// The capabilities, each with its path.
    pub fn as_slice(&self) -> &[(Path, Cap)]
        ensures { result.now ≡ self.now }
    {
        &self.results
    }

    /// A second list of the same capabilities at the same paths. The only error is that memory ran out.
    pub(crate) fn copy(&self) -> Result<Results, AllocError>
        ensures { IfOk result (λ copied. copied ≡ self.now) }
    {
        let mut results = Vec::with_capacity(*self.results.allocator(), self.results.len())?;
        for (path, cap) in &self.results {
            results.push((path.copy()?, cap.copy()?))?;
        }
        Ok(Results { results })
    }
}
