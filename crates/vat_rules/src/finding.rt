//! Findings: a log, and what its audit finds.

ghost use Rattle.std.specs.Prelude.{◌≡◌};
ghost use Rattle.std.specs.Arc.{arc_value};
ghost use Rattle.vat_rules.specs.Audit.{IsTrueOf};

use crate::outcome::Outcome;
use rpc_view::Limits;
use std::marker::Model;
use std::sync::Arc;
use vat_log::VatLog;

/// What the audit of a log finds within limits. The outcome of every finding is what the rules say of its log.
#[derive(Debug)]
pub struct VatFinding {
    log: Arc<VatLog>,
    limits: Limits,
    outcome: Outcome,
}

impl Drop for VatFinding {
    fn drop(self) {
        let Self {
            log: _,
            limits: _,
            outcome: _,
        } = self;
    }
}

impl Model for VatFinding {
    ghost use Rattle.std.specs.Arc.{arc_value};
    ghost use Rattle.vat_rules.specs.Audit.{Found, IsTrueOf};

    ghost Value = { Found };

    ghost view = { λ f. record { log = arc_value f.log; limits = f.limits; outcome = f.outcome } };

    ghost invariant = { λ f. IsTrueOf (arc_value f.log) f.limits f.outcome };
}

impl VatFinding {
    pub(crate) fn new(log: Arc<VatLog>, limits: Limits, outcome: Outcome) -> VatFinding
        requires { IsTrueOf (arc_value log) limits outcome }
        ensures { result ≡ record { log = arc_value log; limits = limits; outcome = outcome } }
    {
        VatFinding {
            log,
            limits,
            outcome,
        }
    }

    /// The log that was audited.
    pub fn log(&self) -> &Arc<VatLog>
        ensures { arc_value result.now ≡ self.now.log }
    {
        &self.log
    }

    /// The limits within which its frames were read: words of 8 bytes to be paid for each frame, and structs within one
    /// another.
    pub fn limits(&self) -> Limits
        ensures { result ≡ self.now.limits }
    {
        self.limits
    }

    /// What the rules say of the log, within the limits.
    pub fn outcome(&self) -> &Outcome
        ensures value { result.now ≡ self.now.outcome }
        ensures of_the_log { IsTrueOf self.now.log self.now.limits result.now }
        // A log has one outcome within given limits.
        ensures only { (other : Outcome) → IsTrueOf self.now.log self.now.limits other
            → other ≡ result.now }
    {
        &self.outcome
    }
}
