//! What stands for the log of a vat in a case.

ghost use Rattle.std.specs.Prelude.{◌≡◌, filter, fold, option_and_then, slice_get};
ghost use Rattle.std.specs.List.Sorted.{IsStrictlyIncreasing};
ghost use Rattle.case_book.specs.Case.{connections_of};
ghost use Rattle.case_book.specs.Least.{lower};
ghost use Rattle.case_book.specs.Ties.{is_unlinked, unlinked_in};
ghost use Rattle.vat_log.specs.Passages.{used_by};

use crate::link::Link;
use crate::ties::{has_link, lower_of};
use std::collections::BTreeSet;
use std::sync::Arc;
use vat_log::VatLog;

/// What stands for the log of a vat in a case: the log, or what is left of it once it was read.
pub trait CaseLog {
    ghost use Rattle.vat_log.specs.Log.{Log};

    // the log
    ghost log: { Self → Log };

    /// The vat whose log it is.
    fn vat(&self) -> u32
        ensures { result ≡ (log self.now).vat };

    /// The least of the connections that the log uses without a link with its vat as an end, and of one found before. The
    /// links stand by rising connection.
    fn least_unlinked(&self, found: Option<u32>, links: &[Link]) -> Option<u32>
        requires { IsStrictlyIncreasing (connections_of links.now) }
        ensures { result ≡ fold lower found (unlinked_in links.now (log self.now)) };
}

/// The connection that the record of this number uses.
fn used_at(log: &VatLog, index: usize) -> Option<u32>
    ensures { result ≡ option_and_then used_by (slice_get log.now.records index) }
{
    match log.get(index)?.body().passage() {
        Some((_, connection)) => Some(connection),
        None => None,
    }
}

/// The least of the connections that a log uses without a link, and of one found before.
fn least_unlinked_in(found: Option<u32>, log: &VatLog, links: &[Link]) -> Option<u32>
    requires { IsStrictlyIncreasing (connections_of links.now) }
    ensures { result ≡ fold lower found (unlinked_in links.now log.now) }
{
    let mut found = found;
    for index in 0..log.len() {
        if let Some(connection) = used_at(log, index) {
            if !has_link(links, log.vat(), connection) {
                found = lower_of(found, connection);
            }
        }
    }
    found
}

impl CaseLog for Arc<VatLog> {
    ghost use Rattle.std.specs.Arc.{arc_value};

    ghost log = { arc_value };

    fn vat(&self) -> u32 {
        VatLog::vat(self)
    }

    fn least_unlinked(&self, found: Option<u32>, links: &[Link]) -> Option<u32> {
        least_unlinked_in(found, self, links)
    }
}

/// The least connection of a set without a link with this vat as an end, and of one found before: of the connections that a log
/// uses, where its records are gone.
pub fn least_unlinked_of(
    found: Option<u32>,
    connections: &BTreeSet<u32>,
    vat: u32,
    links: &[Link],
) -> Option<u32>
    requires { IsStrictlyIncreasing (connections_of links.now) }
    ensures { result ≡ fold lower found (filter (is_unlinked links.now vat) connections.now.keys) }
{
    let mut found = found;
    for connection in connections {
        if !has_link(links, vat, *connection) {
            found = lower_of(found, *connection);
        }
    }
    found
}
