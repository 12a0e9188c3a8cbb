//! The counts of a case whose logs and links are good. Only the records are counted here: its findings know the calls that
//! were delivered and the frames that are under way.

ghost use Rattle.std.specs.Prelude.{◌≡◌, ◌≤◌, length, map, count_by, sum_by};
ghost use Rattle.std.specs.Arc.{arc_value};
ghost use Rattle.call_trace.specs.Findings.{logs_of};
ghost use Rattle.audit_core.specs.Report.{AreGoodEnds, HoldsOfEach, IsGoodFinding, count_all, records_delivery, records_in};
ghost use Rattle.audit_core.specs.Glue.{case_record_limit, under_way_on};
ghost use Rattle.case_book.specs.Case.{vat_limit};

use link_check::{LinkFinding, LinkOutcome};
use std::sync::Arc;
use vat_log::VatLog;
use vat_rules::{Outcome, VatFinding};

/// How many records the logs have.
pub fn count_records(logs: &[Arc<VatLog>]) -> u64
    requires { length logs.now ≤ vat_limit }
    ensures count { result ≡ records_in (map arc_value logs.now) }
    ensures few { result ≤ case_record_limit }
    ensures each { HoldsOfEach (λ log. length log.records ≤ 4294967295) (map arc_value logs.now) }
{
    let mut count = 0;
    for log in logs {
        count += log.len() as u64;
    }
    count
}

/// How many calls a good log delivers, as its audit counted them.
fn delivered_in(found: &VatFinding) -> u64
    requires { IsGoodFinding found.now }
    ensures { result ≡ count_by records_delivery found.now.log.records }
{
    match found.outcome() {
        Outcome::Good(story) => story.delivered(),
        Outcome::Broken { .. } | Outcome::Outside { .. } => unreachable!(),
    }
}

/// How many calls good logs deliver.
pub fn count_delivered(vats: &[VatFinding]) -> u64
    requires good { HoldsOfEach IsGoodFinding vats.now }
    requires few { records_in (logs_of vats.now) ≤ case_record_limit }
    ensures { result ≡ count_all records_delivery (logs_of vats.now) }
{
    let mut count = 0;
    for found in vats {
        count += delivered_in(found);
    }
    count
}

/// How many frames are under way on a good link, as the comparison of its ends counted them.
fn under_way_on(found: &LinkFinding) -> u64
    requires { AreGoodEnds found.now }
    ensures { result ≡ under_way_on found.now }
{
    match found.outcome() {
        LinkOutcome::Good { in_flight, .. } => in_flight,
        LinkOutcome::Broken { .. } => unreachable!(),
    }
}

/// How many frames are under way on good links.
pub fn count_under_way(links: &[LinkFinding]) -> u64
    requires good { HoldsOfEach AreGoodEnds links.now }
    requires few { sum_by under_way_on links.now ≤ case_record_limit }
    ensures { result ≡ sum_by under_way_on links.now }
{
    let mut count = 0;
    for found in links {
        count += under_way_on(found);
    }
    count
}
