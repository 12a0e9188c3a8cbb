//! Logs and links by rising numbers, of which none stands twice.

ghost use Rattle.std.specs.Prelude.{◌≡◌, ◌≤◌, None, Some, IfErr, IfOk, length, map};
ghost use Rattle.std.specs.List.Sorted.{IsPermutation, IsStrictlyIncreasing};
ghost use Rattle.case_book.specs.Case.{vat_limit, link_limit, vats_fault, links_fault, vats_of, connections_of};
ghost use Rattle.case_book.specs.Glue.{first_same};

use crate::case_log::CaseLog;
use crate::error::CaseError;
use crate::link::Link;

/// The first vat number that is that of the log before it.
fn repeated_vat<L: CaseLog>(logs: &[L]) -> Option<u32>
    ensures { result ≡ first_same None (vats_of (map L.log logs.now)) }
{
    let mut previous = None;
    for log in logs {
        let vat = log.vat();
        match previous {
            Some(last) if last == vat => return previous,
            _ => previous = Some(vat),
        }
    }
    None
}

/// The first connection that is that of the link before it.
fn repeated_connection(links: &[Link]) -> Option<u32>
    ensures { result ≡ first_same None (connections_of links.now) }
{
    let mut previous = None;
    for link in links {
        match previous {
            Some(last) if last == link.connection => return previous,
            _ => previous = Some(link.connection),
        }
    }
    None
}

/// How many logs a case may have: one for each vat.
pub const MAX_VATS: usize = 1024;

/// How many links a case may have: one for each connection.
pub const MAX_LINKS: usize = 4096;

/// These logs by rising vat number, or why they make no case.
pub fn rising_logs<L: CaseLog + Drop>(mut logs: Vec<L>) -> Result<Vec<L>, CaseError>
    ensures err { IfErr result (λ error. vats_fault (map L.log logs.items) ≡ Some error) }
    ensures ok { IfOk result (λ sorted. vats_fault (map L.log logs.items) ≡ None) }
    ensures just { IfOk result
        (λ sorted. IsPermutation (map L.log logs.items) (map L.log sorted.items)) }
    ensures rising { IfOk result
        (λ sorted. IsStrictlyIncreasing (vats_of (map L.log sorted.items))) }
    ensures few { IfOk result (λ sorted. length (map L.log sorted.items) ≤ vat_limit) }
{
    if logs.len() > MAX_VATS {
        return Err(CaseError::TooManyVats);
    }
    logs.sort_unstable_by_key(|log| log.vat());
    match repeated_vat(&logs) {
        Some(vat) => Err(CaseError::SameVat(vat)),
        None => Ok(logs),
    }
}

/// These links by rising connection, or why they make no case.
pub fn rising_links(mut links: Vec<Link>) -> Result<Vec<Link>, CaseError>
    ensures err { IfErr result (λ error. links_fault links.items ≡ Some error) }
    ensures ok { IfOk result (λ sorted. links_fault links.items ≡ None) }
    ensures just { IfOk result (λ sorted. IsPermutation links.items sorted.items) }
    ensures rising { IfOk result (λ sorted. IsStrictlyIncreasing (connections_of sorted.items)) }
    ensures few { IfOk result (λ sorted. length sorted.items ≤ link_limit) }
{
    if links.len() > MAX_LINKS {
        return Err(CaseError::TooManyLinks);
    }
    links.sort_unstable_by_key(|link| link.connection);
    match repeated_connection(&links) {
        Some(connection) => Err(CaseError::SameLink(connection)),
        None => Ok(links),
    }
}
