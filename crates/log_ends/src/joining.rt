//! Which two ends are the ends of one connection.

ghost use Rattle.std.specs.Prelude.{◌≡◌, ℕ, ◌+◌, ◌<◌, ◌↔◌, length, IsTrue, MatchBool, MatchOption, IfOk, vec_len};
ghost use Rattle.log_ends.specs.Ends.{IsEnd, Fits};
ghost use Rattle.log_ends.specs.Joining.{IsClear, IsLeftOver, IsFound};
ghost use Rattle.log_ends.specs.Glue.{IsOfLogs, end_at, HasNoFit, IsUnlike, IsNotUnlike, HasNoUnlike, IsStanding, IsFree, HasNoneFree, IsPartner, HasPaired};
ghost use Rattle.log_ends.specs.declared.log_end.LogEnd.{LogEnd};

use crate::log_end::{EndPair, LogEnd};
use crate::passages::{Rows, rows_of};
use std::alloc::{AllocError, Global};
use vat_log::VatLog;

/// What is found of the ends in a list of logs.
#[derive(Drop)]
pub enum Joining {
    /// Each end is in one of these pairs.
    Joined(Vec<EndPair>),
    /// No end fits this one, or each that does is paired with one alike to this one.
    Unmatched(LogEnd),
    /// Ends fit this one that aren't alike.
    Ambiguous(LogEnd),
}

/// How many ends fit an end.
#[derive(Clone, Copy)]
enum Standing {
    /// None.
    Alone,
    /// One, or several that are alike.
    Clear,
    /// Several that aren't alike.
    Ambiguous,
}

/// The first end that fits the one at this place.
fn first_fit(rows: &Rows<'_>, place: usize) -> Option<usize>
    requires rows { IsOfLogs rows.now }
    requires place { place < vec_len rows.now.rows }
    ensures { MatchOption result (HasNoFit rows.now place (vec_len rows.now.rows))
        (λ known. (known < vec_len rows.now.rows)
        × Fits rows.now.logs.now (end_at rows.now place) (end_at rows.now known)) }
{
    for other in 0..rows.len() {
        if rows.fit(place, other) {
            return Some(other);
        }
    }
    None
}

/// Whether one end fits the end at a place and isn't alike to another.
fn is_unlike(rows: &Rows<'_>, place: usize, known: usize, other: usize) -> bool
    requires rows { IsOfLogs rows.now }
    requires place { place < vec_len rows.now.rows }
    requires known { known < vec_len rows.now.rows }
    requires other { other < vec_len rows.now.rows }
    ensures { MatchBool result (IsUnlike rows.now place known other)
        (IsNotUnlike rows.now place known other) }
{
    if !rows.fit(place, other) {
        return false;
    }
    !rows.are_alike(known, other)
}

/// Whether an end fits the one at this place and isn't alike to the known one.
fn has_unlike(rows: &Rows<'_>, place: usize, known: usize) -> bool
    requires rows { IsOfLogs rows.now }
    requires place { place < vec_len rows.now.rows }
    requires known { known < vec_len rows.now.rows }
    ensures { MatchBool result
        ((other : ℕ) × (other < vec_len rows.now.rows) × IsUnlike rows.now place known other)
        (HasNoUnlike rows.now place known (vec_len rows.now.rows)) }
{
    for other in 0..rows.len() {
        if is_unlike(rows, place, known, other) {
            return true;
        }
    }
    false
}

/// How the end at this place stands.
fn standing_of(rows: &Rows<'_>, place: usize) -> Standing
    requires rows { IsOfLogs rows.now }
    requires place { place < vec_len rows.now.rows }
    ensures { IsStanding rows.now.logs.now (end_at rows.now place) result }
{
    let Some(known) = first_fit(rows, place) else {
        return Standing::Alone;
    };
    if has_unlike(rows, place, known) {
        return Standing::Ambiguous;
    }
    Standing::Clear
}

/// What is found of the first end that isn't clear, if there is one.
fn unclear(rows: &Rows<'_>) -> Option<Joining>
    requires { IsOfLogs rows.now }
    ensures { MatchOption result
        ((end : LogEnd) → IsEnd rows.now.logs.now end → IsClear rows.now.logs.now end)
        (IsFound rows.now.logs.now) }
{
    for place in 0..rows.len() {
        match standing_of(rows, place) {
            Standing::Clear => {}
            Standing::Alone => return Some(Joining::Unmatched(rows.end(place))),
            Standing::Ambiguous => return Some(Joining::Ambiguous(rows.end(place))),
        }
    }
    None
}

/// Whether an end fits the one at a place and isn't taken.
fn is_free(rows: &Rows<'_>, taken: &[bool], place: usize, other: usize) -> bool
    requires rows { IsOfLogs rows.now }
    requires flags { length taken.now ≡ vec_len rows.now.rows }
    requires place { place < vec_len rows.now.rows }
    requires other { other < vec_len rows.now.rows }
    ensures { IsTrue result ↔ IsFree rows.now taken.now place other }
{
    if taken[other] {
        return false;
    }
    rows.fit(place, other)
}

/// The first end from this place on that fits the one there and isn't taken.
fn partner(rows: &Rows<'_>, taken: &[bool], place: usize) -> Option<usize>
    requires rows { IsOfLogs rows.now }
    requires flags { length taken.now ≡ vec_len rows.now.rows }
    requires place { place < vec_len rows.now.rows }
    ensures { MatchOption result
        (HasNoneFree rows.now taken.now place (vec_len rows.now.rows))
        (IsPartner rows.now taken.now place) }
{
    for other in place..rows.len() {
        if is_free(rows, taken, place, other) {
            return Some(other);
        }
    }
    None
}

/// The end at this place is paired with its partner, unless it is taken. All before it are. `false` where it is left over.
fn pair(
    rows: &Rows<'_>,
    taken: &mut Vec<bool>,
    pairs: &mut Vec<EndPair>,
    place: usize,
) -> Result<bool, AllocError>
    requires rows { IsOfLogs rows.now }
    requires clear { (end : LogEnd) → IsEnd rows.now.logs.now end
        → IsClear rows.now.logs.now end }
    requires place { place < vec_len rows.now.rows }
    requires paired { HasPaired rows.now place taken.old.items pairs.old.items }
    ensures { IfOk result (λ goes_on. MatchBool goes_on
        (HasPaired rows.now (place + 1) taken.new.items pairs.new.items)
        (IsLeftOver rows.now.logs.now (end_at rows.now place))) }
{
    if taken[place] {
        return Ok(true);
    }
    let Some(other) = partner(rows, taken, place) else {
        return Ok(false);
    };
    pairs.push(EndPair {
        first: rows.end(place),
        second: rows.end(other),
    })?;
    taken[place] = true;
    taken[other] = true;
    Ok(true)
}

/// The pairs, where all ends are clear, or the first end that is left over.
fn paired(alloc: Global, rows: &Rows<'_>) -> Result<Joining, AllocError>
    requires rows { IsOfLogs rows.now }
    requires clear { (end : LogEnd) → IsEnd rows.now.logs.now end
        → IsClear rows.now.logs.now end }
    ensures { IfOk result (IsFound rows.now.logs.now) }
{
    let mut pairs = Vec::new(alloc);
    let mut taken = vec![in alloc; false; rows.len()]?;
    for place in 0..rows.len() {
        if !pair(rows, &mut taken, &mut pairs, place)? {
            return Ok(Joining::Unmatched(rows.end(place)));
        }
    }
    Ok(Joining::Joined(pairs))
}

/// Which ends in these logs are the two ends of one connection: what each received are the first frames that the other sent,
/// and one of them received some. Ends that are alike are paired in the order of the logs, and then of the connections'
/// numbers.
///
/// Each frame is looked at once, and each two ends are compared by four numbers.
///
/// # Errors
///
/// Out of memory.
pub fn join_ends(alloc: Global, logs: &[VatLog]) -> Result<Joining, AllocError>
    ensures { IfOk result (IsFound logs.now) }
{
    let rows = rows_of(alloc, logs)?;
    match unclear(&rows) {
        Some(found) => Ok(found),
        None => paired(alloc, &rows),
    }
}
