//! Whether the results of a call have distinct paths.

ghost use Rattle.std.specs.Prelude.{◌≡◌, IfOk};
ghost use Rattle.std.specs.List.{list_any};
ghost use Rattle.std.specs.Str.{bytes_eq as same_path};
ghost use Rattle.vat_rules.specs.OfCalls.{distinct_paths};

use cap_frame::Path;
use std::alloc::{AllocError, Global};
use std::collections::BTreeSet;

/// So many results at most are compared each with each, which takes no memory.
const FEW: usize = 8;

/// Whether a result stands at a path.
fn contains_path(results: &[(u64, Path)], path: &Path) -> bool
    ensures { result ≡ list_any (λ b. same_path path.now b.1) results.now }
{
    results
        .iter()
        .any(|other| path.as_slice() == other.1.as_slice())
}

/// Whether no path stands twice among a few results.
fn few_distinct(results: &[(u64, Path)]) -> bool
    ensures { result ≡ distinct_paths results.now }
{
    for (index, (_, path)) in results.iter().enumerate() {
        let (_, rest) = results.split_at(index + 1);
        if contains_path(rest, path) {
            return false;
        }
    }
    true
}

/// Whether no path stands twice among many results: each is looked for among those before it.
fn many_distinct(alloc: Global, results: &[(u64, Path)]) -> Result<bool, AllocError>
    ensures { IfOk result (λ distinct. distinct ≡ distinct_paths results.now) }
{
    let mut seen = BTreeSet::new(alloc);
    for (_, path) in results {
        if !seen.insert(path.as_slice())? {
            return Ok(false);
        }
    }
    Ok(true)
}

/// Whether no path stands twice among the results.
pub(crate) fn distinct_paths(alloc: Global, results: &[(u64, Path)]) -> Result<bool, AllocError>
    ensures { IfOk result (λ distinct. distinct ≡ distinct_paths results.now) }
{
    if results.len() <= FEW {
        return Ok(few_distinct(results));
    }
    many_distinct(alloc, results)
}
