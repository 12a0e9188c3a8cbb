//! The turns of an order, each of which takes the next record of a finding's log.

ghost use Rattle.std.specs.Prelude.{◌≡◌, ◌==◌, ◌∷◌, ℕ, [], List, Some, true, false, slice_get, IfOk, OnOk, MatchOption};
ghost use Rattle.std.specs.List.{list_any};
ghost use Rattle.std.specs.List.Sorted.{IsStrictlyIncreasing};
ghost use Rattle.call_trace.specs.Findings.{is_good, AreTrue};
ghost use Rattle.call_trace.specs.Taking.{taken_by};
ghost use Rattle.call_trace.specs.Glue.Turns.{IsTurnOf, HasTurn, TakesTurn, vats_of_ledgers, MayTurn, IsReached, GoesOnWith};
ghost use Rattle.call_trace.specs.Types.{Step as Steps};
ghost use Rattle.vat_rules.specs.Audit.{Found, IsTrueOf};

use crate::records::stories::{event_at, facts_at};
use crate::records::vat_ledger::VatLedger;
use crate::steps::run_builder::RunBuilder;
use run_model::Run;
use std::alloc::{AllocError, Global};
use vat_rules::VatFinding;

impl RunBuilder {
    /// The next record of a good finding's log takes its step, if there is one. The step is there.
    pub(crate) fn turn(
        &mut self,
        alloc: Global,
        ledger: &mut VatLedger,
        finding: &VatFinding,
    ) -> Result<(), AllocError>
        requires good { is_good finding.now.outcome ≡ true }
        requires of_the_log { IsTrueOf finding.now.log finding.now.limits finding.now.outcome }
        requires goes_on { HasTurn finding.now self.old ledger.old }
        ensures { OnOk result
            ((findings : List Found) (turns : List ℕ) (v : ℕ) (before : List Steps)
            → IsTurnOf findings turns v before finding.now self.old ledger.old
            → TakesTurn v (taken_by findings turns)
            (taken_by findings (v ∷ turns)) before self.new ledger.new) }
    {
        let number = ledger.numbers.len();
        let (Some(event), Some(facts)) = (event_at(finding, number), facts_at(finding, number))
        else {
            return Ok(());
        };
        self.take(alloc, ledger, event, facts)
    }
}

/// Where that stands which is kept of a vat. They stand by rising vat numbers, and are searched so.
fn place_of(ledgers: &[VatLedger], vat: u32) -> Option<usize>
    requires { IsStrictlyIncreasing (vats_of_ledgers ledgers.now) }
    ensures { MatchOption result (list_any (λ ledger. ledger.vat == vat) ledgers.now ≡ false)
        (λ place. slice_get (vats_of_ledgers ledgers.now) place ≡ Some vat) }
{
    match ledgers.binary_search_by_key(&vat, |ledger| ledger.vat) {
        Ok(place) => Some(place),
        Err(_) => None,
    }
}

/// The turns of an order that were taken, and what is kept of each vat for those to come.
#[derive(Drop)]
pub(crate) struct TracedTurns {
    trail: RunBuilder,
    /// What is kept of the vat of each finding, in the order of the findings.
    ledgers: Vec<VatLedger>,
}

impl TracedTurns {
    /// Before any turn, with room for so many.
    pub(crate) fn new(
        alloc: Global,
        findings: &[VatFinding],
        turns: usize,
    ) -> Result<TracedTurns, AllocError>
        ensures reached { IfOk result (IsReached findings.now []) }
        ensures outcomes { IfOk result (λ _. AreTrue findings.now) }
    {
        let mut ledgers = Vec::with_capacity(alloc, findings.len())?;
        for finding in findings {
            ledgers.push(VatLedger::new(alloc, finding)?)?;
        }
        let trail = RunBuilder::new(alloc, turns)?;
        Ok(TracedTurns { trail, ledgers })
    }

    /// This vat takes its turn: the next record of its log takes its step, if there is one. The step is there.
    pub(crate) fn turn(
        &mut self,
        alloc: Global,
        findings: &[VatFinding],
        vat: u32,
    ) -> Result<(), AllocError>
        requires may_turn { MayTurn findings.now self.old.ledgers.items }
        requires goes_on { GoesOnWith findings.now vat self.old }
        ensures { OnOk result
            ((turns : List ℕ) → IsReached findings.now turns self.old
            → IsReached findings.now (vat ∷ turns) self.new) }
    {
        match place_of(&self.ledgers, vat) {
            Some(place) => self
                .trail
                .turn(alloc, &mut self.ledgers[place], &findings[place]),
            None => Ok(()),
        }
    }

    /// The run of these turns.
    pub(crate) fn into_run(self) -> Run
        ensures { result ≡ self.trail.steps.items }
    {
        let trail = self.trail;
        Run::new(trail.steps)
    }
}
