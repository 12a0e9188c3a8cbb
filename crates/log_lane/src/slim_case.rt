//! Cases whose logs' records are gone.

ghost use Rattle.std.specs.Prelude.{◌≡◌, ◌≤◌, None, Some, IfOk, IfErr, length};
ghost use Rattle.std.specs.List.Sorted.{IsStrictlyIncreasing};
ghost use Rattle.case_book.specs.Case.{vat_limit, link_limit, case_refusal_of, vats_of, connections_of, IsCase, HoldsJust};
ghost use Rattle.case_book.specs.Ties.{tie_fault_of};
ghost use Rattle.log_lane.specs.Slim.{logs_audited};

use crate::slim_log::SlimLog;
use case_book::{CaseError, Link, TieFault, rising_links, rising_logs, tie_fault};
use std::marker::Model;

/// What is left of the logs of some vats, at most [`MAX_VATS`](case_book::MAX_VATS), and the links between them, at most [`MAX_LINKS`](case_book::MAX_LINKS). Each vat
/// has one log, each connection one link; that they tie up is asked of [`SlimCase::tie_fault`]. Contracts see it as they see
/// a [`Case`](case_book::Case): the logs with all their records.
#[derive(Drop)]
pub struct SlimCase {
    logs: Vec<SlimLog>,
    links: Vec<Link>,
}

impl Model for SlimCase {
    ghost use Rattle.case_book.specs.Case.{Contents, IsCase};
    ghost use Rattle.log_lane.specs.Slim.{logs_audited};

    ghost Value = { Contents };

    ghost view = { λ held. record { logs = logs_audited held.logs.items; links = held.links.items } };

    ghost invariant = { λ held. IsCase (record { logs = logs_audited held.logs.items; links = held.links.items }) };
}

impl SlimCase {
    /// The case of these logs and links, which may come in any order. It takes no memory. Where it is refused, the logs and
    /// links are dropped.
    ///
    /// # Errors
    ///
    /// The first that applies: `TooManyVats` above [`MAX_VATS`](case_book::MAX_VATS) logs; `SameVat` with the least vat that has two logs;
    /// `TooManyLinks` above [`MAX_LINKS`](case_book::MAX_LINKS) links; `SameLink` with the least connection that has two links.
    pub fn new(logs: Vec<SlimLog>, links: Vec<Link>) -> Result<SlimCase, CaseError>
        // Where it is refused, and why.
        ensures err { IfErr result (λ error. case_refusal_of (logs_audited logs.items) links.items ≡ Some error) }
        ensures ok { IfOk result (λ case. case_refusal_of (logs_audited logs.items) links.items ≡ None) }
        // What it holds.
        ensures held { IfOk result (λ case. HoldsJust (logs_audited logs.items) links.items case) }
        ensures rising { IfOk result IsCase }
    {
        let logs = rising_logs(logs)?;
        let links = rising_links(links)?;
        Ok(SlimCase { logs, links })
    }

    /// The logs, by rising vat number.
    pub fn logs(&self) -> &[SlimLog]
        ensures lent { logs_audited result.now ≡ self.now.logs }
        ensures rising { IsStrictlyIncreasing (vats_of (logs_audited result.now)) }
        ensures few { length result.now ≤ vat_limit }
    {
        &self.logs
    }

    /// The links, by rising connection.
    pub fn links(&self) -> &[Link]
        ensures lent { result.now ≡ self.now.links }
        ensures rising { IsStrictlyIncreasing (connections_of result.now) }
        ensures few { length result.now ≤ link_limit }
    {
        &self.links
    }

    /// Why the logs and links don't tie up, if they don't. A connection for which a log is missing comes before any whose
    /// two ends are one vat; of each kind the least connection is named. It takes no memory.
    pub fn tie_fault(&self) -> Option<TieFault>
        ensures { result ≡ tie_fault_of self.now }
    {
        let SlimCase { logs, links } = self;
        tie_fault(logs, links)
    }
}
