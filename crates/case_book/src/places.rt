//! Which piece of a case a finding is for.

ghost use Rattle.std.specs.Prelude.{◌≡◌, ℕ, ◌+◌, None, Some, Contains, Decides, MatchOption, map, slice_get, IsSomeAnd};
ghost use Rattle.std.specs.Arc.{arc_value};
ghost use Rattle.case_book.specs.Pieces.{IsAuditOf, IsComparisonOf, IsForPiece};

use crate::case::Case;
use crate::link::Link;
use crate::piece_finding::Finding;
use link_check::LinkFinding;
use rpc_view::Limits;
use std::sync::Arc;
use vat_log::VatLog;
use vat_rules::VatFinding;

/// Whether two logs are the same, byte for byte: a log has one spelling.
pub fn is_same_log(one: &VatLog, other: &VatLog) -> bool
    ensures { Decides result (one.now ≡ other.now) }
{
    one.bytes() == other.bytes()
}

/// The place of a log among these.
fn place_of(logs: &[Arc<VatLog>], log: &VatLog) -> Option<usize>
    ensures { MatchOption result (¬ Contains (map arc_value logs.now) log.now)
        (λ k. slice_get (map arc_value logs.now) k ≡ Some log.now) }
{
    for (index, held) in logs.iter().enumerate() {
        if is_same_log(held, log) {
            return Some(index);
        }
    }
    None
}

/// The place of the log that a finding audits within the default limits.
fn audited_place(logs: &[Arc<VatLog>], found: &VatFinding) -> Option<usize>
    ensures { MatchOption result
        ((k : ℕ) → ¬ IsSomeAnd (slice_get (map arc_value logs.now) k)
        (λ log. IsAuditOf log found.now))
        (λ k. IsSomeAnd (slice_get (map arc_value logs.now) k) (λ log. IsAuditOf log found.now)) }
{
    if found.limits() == Limits::default() {
        place_of(logs, found.log())
    } else {
        None
    }
}

/// Whether a finding is of this link, with two of these logs.
fn is_comparison(logs: &[Arc<VatLog>], link: &Link, found: &LinkFinding) -> bool
    ensures { Decides result (IsComparisonOf (map arc_value logs.now) link.now found.now) }
{
    let first = found.first();
    let second = found.second();
    found.connection() == link.connection
        && first.vat() == link.a.min(link.b)
        && second.vat() == link.a.max(link.b)
        && place_of(logs, first).is_some()
        && place_of(logs, second).is_some()
}

/// The place of the link that a finding compares.
fn compared_place(logs: &[Arc<VatLog>], links: &[Link], found: &LinkFinding) -> Option<usize>
    ensures { MatchOption result
        ((k : ℕ) → ¬ IsSomeAnd (slice_get links.now k)
        (λ link. IsComparisonOf (map arc_value logs.now) link found.now))
        (λ k. IsSomeAnd (slice_get links.now k)
        (λ link. IsComparisonOf (map arc_value logs.now) link found.now)) }
{
    for (index, link) in links.iter().enumerate() {
        if is_comparison(logs, link, found) {
            return Some(index);
        }
    }
    None
}

/// The number of the piece that a finding is for.
pub fn number_of(case: &Case, found: &Finding) -> Option<usize>
    ensures { MatchOption result ((number : ℕ) → ¬ IsForPiece case.now found.now number)
        (IsForPiece case.now found.now) }
{
    let logs = case.logs();
    match found {
        Finding::Vat(audited) => audited_place(logs, audited),
        Finding::Link(compared) => match compared_place(logs, case.links(), compared) {
            Some(place) => Some(logs.len() + place),
            None => None,
        },
    }
}
