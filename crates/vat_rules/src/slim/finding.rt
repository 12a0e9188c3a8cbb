//! Findings without what the log tells.

ghost use Rattle.std.specs.Prelude.{◌≡◌, length, reverse};
ghost use Rattle.vat_rules.specs.Audit.{IsTrueOf};
ghost use Rattle.vat_rules.specs.Slim.{outcome_in};

use crate::outcome::Why;
use crate::rule::Rule;
use crate::slim::story::SlimStory;
use erased::Erased;
use rpc_view::Limits;
use std::fmt::{self, Debug, Formatter, Write};
use std::marker::Model;
use vat_log::{Body, LogHeader};

/// What the audit of one log finds (docs/RULES.md), without the log's records.
#[derive(Debug, Drop)]
pub enum SlimOutcome {
    /// Every record is good, and this is what the log tells.
    Good(SlimStory),
    /// The first record that isn't good, all before it being good, breaks a rule.
    Broken {
        /// The record's number, counted from 0.
        at: u64,
        /// The first rule that it breaks, in the order of [`Rule`].
        rule: Rule,
    },
    /// The first record that isn't good, all before it being good, isn't judged.
    Outside {
        /// The record's number, counted from 0.
        at: u64,
        /// The reason.
        why: Why,
    },
}

/// What the audit of a log finds within limits. It keeps the log's header, and none of its records. The outcome of every
/// finding is what the rules say of its log.
pub struct SlimFinding {
    header: LogHeader,
    records: Erased<Body>,
    count: u64,
    limits: Limits,
    outcome: SlimOutcome,
}

impl Drop for SlimFinding {
    fn drop(self) {
        let Self {
            header: _,
            records: _,
            count: _,
            limits: _,
            outcome: _,
        } = self;
    }
}

impl Debug for SlimFinding {
    fn fmt<W: Write>(&self, f: &mut Formatter<W>) -> fmt::Result {
        f.debug_struct("SlimFinding")
            .field("header", &self.header)
            .field("records", &self.count)
            .field("limits", &self.limits)
            .field("outcome", &self.outcome)
            .finish()
    }
}

impl Model for SlimFinding {
    ghost use Rattle.std.specs.Prelude.{◌≡◌, length, reverse};
    ghost use Rattle.vat_rules.specs.Audit.{Found, IsTrueOf};
    ghost use Rattle.vat_rules.specs.Slim.{outcome_in};

    ghost Value = { Found };

    ghost view = { λ f. record {
      log = record { version = f.header.version; vat = f.header.vat; records = reverse f.records.items };
      limits = f.limits;
      outcome = outcome_in f.outcome;
    } };

    ghost invariant = { λ f. (f.count ≡ length f.records.items) × IsTrueOf
        (record { version = f.header.version; vat = f.header.vat; records = reverse f.records.items })
        f.limits (outcome_in f.outcome) };
}

impl SlimFinding {
    /// What was found of the log with this header and these records, the newest first, which are so many.
    pub(crate) fn new(
        header: LogHeader,
        records: Erased<Body>,
        count: u64,
        limits: Limits,
        outcome: SlimOutcome,
    ) -> SlimFinding
        requires count { count ≡ length records.items }
        requires outcome { IsTrueOf
            (record { version = header.version; vat = header.vat; records = reverse records.items })
            limits (outcome_in outcome) }
        ensures { result ≡ record {
          log = record {
            version = header.version;
            vat = header.vat;
            records = reverse records.items;
          };
          limits = limits;
          outcome = outcome_in outcome;
        } }
    {
        SlimFinding {
            header,
            records,
            count,
            limits,
            outcome,
        }
    }

    /// The vat whose log was audited.
    pub fn vat(&self) -> u32
        ensures { result ≡ self.now.log.vat }
    {
        self.header.vat()
    }

    /// How many records the log has.
    pub fn len(&self) -> u64
        ensures { result ≡ length self.now.log.records }
    {
        self.count
    }

    /// The limits within which its frames were read, as a [`VatFinding`](crate::VatFinding) has them.
    pub fn limits(&self) -> Limits
        ensures { result ≡ self.now.limits }
    {
        self.limits
    }

    /// What the rules say of the log, within the limits.
    pub fn outcome(&self) -> &SlimOutcome
        ensures value { outcome_in result.now ≡ self.now.outcome }
        ensures of_the_log { IsTrueOf self.now.log self.now.limits (outcome_in result.now) }
    {
        &self.outcome
    }
}
