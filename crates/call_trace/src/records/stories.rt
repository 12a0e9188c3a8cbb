//! What good findings tell, record by record.

ghost use Rattle.std.specs.Prelude.{◌≡◌, true, option_map, slice_get};
ghost use Rattle.std.specs.Option.{option_copied};
ghost use Rattle.call_trace.specs.Findings.{is_good};
ghost use Rattle.call_trace.specs.Named.{past_before};
ghost use Rattle.call_trace.specs.Taking.{record_in};
ghost use Rattle.call_trace.specs.Glue.Ledgers.{story_in};
ghost use Rattle.vat_rules.specs.Audit.{IsTrueOf};
ghost use Rattle.vat_rules.specs.Telling.{facts_of};

use vat_rules::{Outcome, RecordFacts, Story, VatFinding};
use vat_view::DecodedRecord;

/// What a finding's log tells, where it is good.
fn story(finding: &VatFinding) -> Option<&Story>
    ensures story { option_copied result ≡ story_in finding.now.outcome }
    ensures of_the_log { IsTrueOf finding.now.log finding.now.limits finding.now.outcome }
{
    match finding.outcome() {
        Outcome::Good(story) => Some(story),
        _ => None,
    }
}

/// The record of this number, of these.
fn event_of(events: &[DecodedRecord], number: usize) -> Option<&DecodedRecord>
    ensures { option_copied result ≡ slice_get events.now number }
{
    events.get(number)
}

/// The facts of the record of this number, among these.
fn nth_facts(facts: &[RecordFacts], number: usize) -> Option<&RecordFacts>
    ensures { option_copied result ≡ slice_get facts.now number }
{
    facts.get(number)
}

/// The record of this number of a good finding's log.
pub(crate) fn event_at(finding: &VatFinding, number: usize) -> Option<&DecodedRecord>
    requires { is_good finding.now.outcome ≡ true }
    ensures { option_copied result ≡ record_in finding.now number }
{
    event_of(story(finding)?.events(), number)
}

/// What the numbers of the record of this number stand for.
pub(crate) fn facts_at(finding: &VatFinding, number: usize) -> Option<&RecordFacts>
    requires { is_good finding.now.outcome ≡ true }
    ensures { option_copied result ≡ option_map (λ e. facts_of (past_before finding.now number) e)
        (record_in finding.now number) }
{
    nth_facts(story(finding)?.facts(), number)
}
