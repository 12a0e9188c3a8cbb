//! References by path.

ghost use Rattle.std.specs.Prelude.{◌≡◌, ℕ, List, IfOk};
ghost use Rattle.std.specs.Ordering.{nat_cmp, is_lt};
ghost use Rattle.std.specs.Cmp.Lexicographic.{slice_cmp};
ghost use Rattle.std.specs.List.Sorted.{IsSortedBy};
ghost use Rattle.vat_view.specs.Glue.FieldTargets.{is_before, target_among};

use cap_frame::Path;
use std::alloc::AllocError;
use std::cmp::Ordering;
use std::marker::Model;

/// References by path, or none beside one, in the order of the paths, so that a path is found in a time with the logarithm
/// of their number. Of a path that stands twice the first that was handed in counts.
#[derive(Drop)]
pub(crate) struct FieldTargets {
    sorted: Vec<(Option<u64>, Path)>,
}

impl Model for FieldTargets {
    ghost use Rattle.std.specs.Prelude.{List, Option, ℕ};
    ghost use Rattle.std.specs.List.Sorted.{IsSortedBy};
    ghost use Rattle.vat_view.specs.Glue.FieldTargets.{is_before};

    ghost Value = { List (Option ℕ × List ℕ) };

    ghost view = { λ targets. targets.sorted.items };

    ghost invariant = { λ targets. IsSortedBy is_before targets.sorted.items };
}

/// The reference at a path, by fields in the order of their paths.
fn target_of(sorted: &[(Option<u64>, Path)], path: &[u16]) -> Option<u64>
    requires { IsSortedBy is_before sorted.now }
    ensures { result ≡ target_among path.now sorted.now }
{
    let place = sorted.partition_point(
        |field: &(Option<u64>, Path)| -> bool
            ensures { result ≡ is_lt (slice_cmp nat_cmp field.now.1 path.entry.now) }
        { field.1.as_slice().cmp(path).is_lt() },
    );
    match sorted.get(place) {
        Some((reference, at)) if at.as_slice() == path => *reference,
        _ => None,
    }
}

impl FieldTargets {
    /// What stands at these paths.
    pub(crate) fn new(fields: Vec<(Option<u64>, Path)>) -> Result<FieldTargets, AllocError>
        ensures { IfOk result (λ targets. (path : List ℕ) → target_among path targets ≡ target_among path fields.items) }
    {
        let mut sorted = fields;
        sorted.sort_by(
            |a: &(Option<u64>, Path), b: &(Option<u64>, Path)| -> Ordering
                ensures { result ≡ slice_cmp nat_cmp a.now.1 b.now.1 }
            { a.1.as_slice().cmp(b.1.as_slice()) },
        )?;
        Ok(FieldTargets { sorted })
    }

    /// The reference at this path, if there is one.
    pub(crate) fn at(&self, path: &[u16]) -> Option<u64>
        ensures { result ≡ target_among path.now self.now }
    {
        target_of(self.sorted.as_slice(), path)
    }
}
