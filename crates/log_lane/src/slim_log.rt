//! Logs whose records are gone.

ghost use Rattle.std.specs.Prelude.{◌≡◌};
ghost use Rattle.cap_reader.specs.Defaults.{default_limits};
ghost use Rattle.log_lane.specs.UsedOnce.{AreUsed};

use crate::used::UsedConnections;
use case_book::{CaseLog, Link, least_unlinked_of};
use std::collections::BTreeSet;
use std::marker::Model;
use vat_rules::SlimFinding;

/// What is left of a log that was audited: what was found, and which connections it used.
#[derive(Drop)]
pub struct SlimLog {
    finding: SlimFinding,
    used: UsedConnections,
}

impl Model for SlimLog {
    ghost use Rattle.std.specs.Prelude.{◌≡◌};
    ghost use Rattle.cap_reader.specs.Defaults.{default_limits};
    ghost use Rattle.vat_rules.specs.Audit.{Found};

    ghost Value = { Found };

    ghost view = { λ log. log.finding };

    ghost invariant = { λ log. (log.used ≡ log.finding.log.records) × (log.finding.limits ≡ default_limits) };
}

impl SlimLog {
    /// The log of a finding within the default limits, with the connections that its records used: they must have been told
    /// just these records.
    pub fn new(finding: SlimFinding, used: UsedConnections) -> SlimLog
        requires used { used ≡ finding.log.records }
        requires within { finding.limits ≡ default_limits }
        ensures { result ≡ finding }
    {
        SlimLog { finding, used }
    }

    /// What its audit found.
    pub fn finding(&self) -> &SlimFinding
        ensures found { result.now ≡ self.now }
        ensures within { result.now.limits ≡ default_limits }
    {
        &self.finding
    }

    /// The connections that its records used, each once.
    fn connections(&self) -> &BTreeSet<u32>
        ensures { AreUsed self.now.log.records result.now.keys }
    {
        self.used.connections()
    }
}

impl CaseLog for SlimLog {
    ghost log = { λ found. found.log };

    fn vat(&self) -> u32 {
        self.finding.vat()
    }

    fn least_unlinked(&self, found: Option<u32>, links: &[Link]) -> Option<u32> {
        least_unlinked_of(found, self.connections(), self.vat(), links)
    }
}
