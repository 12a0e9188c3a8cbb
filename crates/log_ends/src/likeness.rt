//! Ends that are alike.

ghost use Rattle.std.specs.Prelude.{◌+◌, ◌<◌, MatchOption, IfOk, vec_len};
ghost use Rattle.log_ends.specs.Ends.{AreAlike};
ghost use Rattle.log_ends.specs.Joining.{AreFoundAlike};
ghost use Rattle.log_ends.specs.Glue.{IsOfLogs, end_at, HasNoAlike};

use crate::log_end::EndPair;
use crate::passages::{Rows, rows_of};
use std::alloc::{AllocError, Global};
use vat_log::VatLog;

/// The first end behind the one at this place that is alike to it.
fn next_alike(rows: &Rows<'_>, place: usize) -> Option<usize>
    requires rows { IsOfLogs rows.now }
    requires place { place < vec_len rows.now.rows }
    ensures { MatchOption result (HasNoAlike rows.now place (place + 1) (vec_len rows.now.rows))
        (λ other. (place < other) × (other < vec_len rows.now.rows)
        × AreAlike rows.now.logs.now (end_at rows.now place) (end_at rows.now other)) }
{
    for other in place + 1..rows.len() {
        if rows.are_alike(place, other) {
            return Some(other);
        }
    }
    None
}

/// The first two ends that are alike.
fn first_alike(rows: &Rows<'_>) -> Option<EndPair>
    requires { IsOfLogs rows.now }
    ensures { AreFoundAlike rows.now.logs.now result }
{
    for place in 0..rows.len() {
        if let Some(other) = next_alike(rows, place) {
            return Some(EndPair {
                first: rows.end(place),
                second: rows.end(other),
            });
        }
    }
    None
}

/// Two ends at which the same passed in both directions, if there are such. The first of all ends to which one behind it is
/// alike comes first. Where such ends are joined, nothing but their order says which is paired with which.
///
/// # Errors
///
/// Out of memory.
pub fn alike_ends(alloc: Global, logs: &[VatLog]) -> Result<Option<EndPair>, AllocError>
    ensures { IfOk result (AreFoundAlike logs.now) }
{
    let rows = rows_of(alloc, logs)?;
    Ok(first_alike(&rows))
}
