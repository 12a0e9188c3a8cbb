//! The work of a piece: the audit of a log, and the comparison of a link's ends.

ghost use Rattle.std.specs.Prelude.{◌≡◌, ◌≢◌, true, false, IfOk, Contains, MatchOption, map};
ghost use Rattle.std.specs.Arc.{arc_value};
ghost use Rattle.case_book.specs.Pieces.{IsAuditOf, IsComparisonOf};
ghost use Rattle.case_book.specs.Ties.{has_log};

use crate::link::Link;
use link_check::{LinkFinding, check_link};
use rpc_view::Limits;
use std::alloc::{AllocError, Global};
use std::sync::Arc;
use vat_log::VatLog;
use vat_rules::{VatFinding, audit_vat};

/// The audit of a log within the default limits.
pub fn audit_log(alloc: Global, log: &Arc<VatLog>) -> Result<VatFinding, AllocError>
    ensures { IfOk result (IsAuditOf (arc_value log.now)) }
{
    audit_vat(alloc, log, Limits::default())
}

/// The log of a vat.
fn log_of(logs: &[Arc<VatLog>], vat: u32) -> Option<&Arc<VatLog>>
    ensures { MatchOption result (has_log (map arc_value logs.now) vat ≡ false)
        (λ log. Contains (map arc_value logs.now) (arc_value log.now)
        × ((arc_value log.now).vat ≡ vat)) }
{
    for log in logs {
        if log.vat() == vat {
            return Some(log);
        }
    }
    None
}

/// The comparison of a link's two ends, which have logs and are two vats.
pub fn compare_ends(logs: &[Arc<VatLog>], link: &Link) -> Result<LinkFinding, AllocError>
    requires first { has_log (map arc_value logs.now) link.now.a ≡ true }
    requires second { has_log (map arc_value logs.now) link.now.b ≡ true }
    requires apart { link.now.a ≢ link.now.b }
    ensures { IfOk result (IsComparisonOf (map arc_value logs.now) link.now) }
{
    let Some(one) = log_of(logs, link.a) else {
        unreachable!()
    };
    let Some(other) = log_of(logs, link.b) else {
        unreachable!()
    };
    check_link(link.connection, one, other)
}
