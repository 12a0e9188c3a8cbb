//! One record more of a log: judged, and applied where it is good.

ghost use Rattle.std.specs.Prelude.{◌≡◌, ◌∷◌, IfOk, OnOk, OnErr, MatchOption, MatchResult};
ghost use Rattle.decoded_records.specs.Past.{Past};
ghost use Rattle.vat_view.specs.Sound.{IsSound};
ghost use Rattle.vat_rules.specs.Rules.{rules};
ghost use Rattle.vat_rules.specs.Judged.{IsGoodBy, BreaksFirst};
ghost use Rattle.vat_rules.specs.Telling.{facts_of};
ghost use Rattle.vat_rules.specs.Glue.Facts.{facts_before};
ghost use Rattle.vat_rules.specs.Glue.Taking.{IsTaken};

use crate::by_kind::is_good_by_kind;
use crate::facts::compact::RecordFacts;
use crate::facts::lookup::{facts_before, views_of_references};
use crate::facts::plain_facts::PlainFacts;
use crate::judge::rule_broken;
use crate::outcome::Why;
use crate::rule::Rule;
use rpc_view::Edition;
use std::alloc::{AllocError, Global};
use vat_view::{DecodedRecord, VatState};

/// Why a stored record isn't applied.
#[derive(Clone, Copy)]
pub(crate) enum Refusal {
    /// It is outside of what is audited.
    Outside(Why),
    /// It breaks this rule, and none before it.
    Broken(Rule),
}

/// Applies a good record. Where memory runs out, the state is as it was.
#[inline(always)]
pub(crate) fn apply_good(state: &mut VatState, event: &DecodedRecord) -> Result<(), AllocError>
    requires { IsSound state.old event.now }
    ensures ok { OnOk result (state.new ≡ event.now ∷ state.old) }
    ensures err { OnErr result (state.new ≡ state.old) }
{
    state.apply(event)
}

/// Judges a record by all rules that its kind may break, and applies it if it is good; else the first rule that it breaks, and
/// the state is as it was. So it is where memory runs out.
fn apply_by_rules(
    alloc: Global,
    edition: Edition,
    state: &mut VatState,
    event: &DecodedRecord,
) -> Result<Option<Rule>, AllocError>
    ensures ok { IfOk result (λ r. MatchOption r
        (IsGoodBy edition state.old event.now × (state.new ≡ event.now ∷ state.old))
        (λ rule. BreaksFirst edition rules state.old event.now rule × (state.new ≡ state.old))) }
    ensures err { OnErr result (state.new ≡ state.old) }
{
    let facts = facts_before(alloc, state, event)?;
    match rule_broken(alloc, edition, state, event, &facts)? {
        Some(rule) => Ok(Some(rule)),
        None => {
            apply_good(state, event)?;
            Ok(None)
        }
    }
}

/// Judges a record by an edition, and applies it if it is good; else the first rule that it breaks, and the state is as it
/// was. So it is where memory runs out. Records of the commonest kinds are mostly good by what their kind alone is asked.
#[inline(always)]
pub(crate) fn apply_if_good(
    alloc: Global,
    edition: Edition,
    state: &mut VatState,
    event: &DecodedRecord,
) -> Result<Option<Rule>, AllocError>
    ensures ok { IfOk result (λ r. MatchOption r
        (IsGoodBy edition state.old event.now × (state.new ≡ event.now ∷ state.old))
        (λ rule. BreaksFirst edition rules state.old event.now rule × (state.new ≡ state.old))) }
    ensures err { OnErr result (state.new ≡ state.old) }
{
    let good = is_good_by_kind(edition, state, event)?;
    if good {
        apply_good(state, event)?;
        Ok(None)
    } else {
        apply_by_rules(alloc, edition, state, event)
    }
}

/// The facts of a record, by the state that it was applied to last and what its numbers stood for before.
fn facts_of(
    alloc: Global,
    state: &VatState,
    event: &DecodedRecord,
    facts: PlainFacts,
) -> Result<RecordFacts, AllocError>
    ensures { (before : Past) → state.now ≡ event.now ∷ before → facts ≡ facts_before before event.now
        → IfOk result (λ facts. facts ≡ facts_of before event.now) }
{
    let references = views_of_references(alloc, state, event)?;
    match event {
        DecodedRecord::Wire { .. } => RecordFacts::new(alloc, references, facts),
        _ => Ok(RecordFacts::of_references(references)),
    }
}

/// Judges a record by an edition, and applies it if it is good, and gives its facts; else the first rule that it
/// breaks.
pub(crate) fn take(
    alloc: Global,
    edition: Edition,
    state: &mut VatState,
    event: &DecodedRecord,
) -> Result<Result<RecordFacts, Rule>, AllocError>
    ensures { IfOk result (λ r. MatchResult r
        (IsTaken edition state.old event.now state.new)
        (λ rule. BreaksFirst edition rules state.old event.now rule)) }
{
    let facts = facts_before(alloc, state, event)?;
    match rule_broken(alloc, edition, state, event, &facts)? {
        Some(rule) => Ok(Err(rule)),
        None => {
            apply_good(state, event)?;
            Ok(Ok(facts_of(alloc, state, event, facts)?))
        }
    }
}
