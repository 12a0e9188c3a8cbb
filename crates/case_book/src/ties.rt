//! Whether the logs and links of a case tie up.

ghost use Rattle.std.specs.Prelude.{◌≡◌, fold, map};
ghost use Rattle.std.specs.List.{flat_map};
ghost use Rattle.std.specs.List.Sorted.{IsStrictlyIncreasing};
ghost use Rattle.case_book.specs.Least.{lower, least};
ghost use Rattle.case_book.specs.Case.{connections_of};
ghost use Rattle.case_book.specs.Ties.{is_linked, unlinked_in, has_log, missing_logs, links_without_log, links_of_one_vat, tie_fault_of};

use crate::case_log::CaseLog;
use crate::link::Link;

/// Why the logs and links of a case don't tie up: the least connection for which a log is missing, or, where there is none,
/// the least whose two ends are one vat.
#[derive(Clone, Copy, Debug, PartialEq, Eq)]
pub enum TieFault {
    /// A log uses this connection, and it has no link with that vat as an end; or its link names a vat without a log.
    MissingLog(u32),
    /// Both ends of this connection's link are one vat.
    SameEnds(u32),
}

/// The smaller of a connection, if there is one, and another.
pub(crate) fn lower_of(found: Option<u32>, connection: u32) -> Option<u32>
    ensures { result ≡ lower found connection }
{
    match found {
        Some(least) if least <= connection => found,
        _ => Some(connection),
    }
}

/// Whether a connection has a link with this vat as an end. The links stand by rising connection, and are searched so.
pub(crate) fn has_link(links: &[Link], vat: u32, connection: u32) -> bool
    requires { IsStrictlyIncreasing (connections_of links.now) }
    ensures { result ≡ is_linked links.now vat connection }
{
    match links.binary_search_by_key(&connection, |link| link.connection) {
        Ok(at) => links[at].a == vat || links[at].b == vat,
        Err(_) => false,
    }
}

/// The least of the connections that the logs use without a link.
fn least_unlinked<L: CaseLog>(logs: &[L], links: &[Link]) -> Option<u32>
    requires { IsStrictlyIncreasing (connections_of links.now) }
    ensures { result ≡ least (flat_map (unlinked_in links.now) (map L.log logs.now)) }
{
    let mut found = None;
    for log in logs {
        found = log.least_unlinked(found, links);
    }
    found
}

/// Whether a vat has a log.
fn is_logged<L: CaseLog>(logs: &[L], vat: u32) -> bool
    ensures { result ≡ has_log (map L.log logs.now) vat }
{
    for log in logs {
        if log.vat() == vat {
            return true;
        }
    }
    false
}

/// The least of the connections whose link names a vat without a log, and of one found before.
fn least_unlogged<L: CaseLog>(found: Option<u32>, logs: &[L], links: &[Link]) -> Option<u32>
    ensures { result ≡ fold lower found (links_without_log (map L.log logs.now) links.now) }
{
    let mut found = found;
    for link in links {
        if !(is_logged(logs, link.a) && is_logged(logs, link.b)) {
            found = lower_of(found, link.connection);
        }
    }
    found
}

/// The least connection for which a log is missing, of links by rising connection.
fn least_missing<L: CaseLog>(logs: &[L], links: &[Link]) -> Option<u32>
    requires { IsStrictlyIncreasing (connections_of links.now) }
    ensures { result ≡ least
        (missing_logs (record { logs = map L.log logs.now; links = links.now })) }
{
    least_unlogged(least_unlinked(logs, links), logs, links)
}

/// The least connection whose ends are one vat.
fn least_same_ended(links: &[Link]) -> Option<u32>
    ensures { result ≡ least (links_of_one_vat links.now) }
{
    let mut found = None;
    for link in links {
        if link.a == link.b {
            found = lower_of(found, link.connection);
        }
    }
    found
}

/// Why logs and links don't tie up, if they don't. A connection for which a log is missing comes before any whose two ends are
/// one vat; of each kind the least connection is named. The links stand by rising connection. It takes no memory.
pub fn tie_fault<L: CaseLog>(logs: &[L], links: &[Link]) -> Option<TieFault>
    requires { IsStrictlyIncreasing (connections_of links.now) }
    ensures { result ≡ tie_fault_of (record { logs = map L.log logs.now; links = links.now }) }
{
    if let Some(connection) = least_missing(logs, links) {
        return Some(TieFault::MissingLog(connection));
    }
    least_same_ended(links).map(TieFault::SameEnds)
}
