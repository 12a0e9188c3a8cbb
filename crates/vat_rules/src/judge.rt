//! The first rule that a record breaks.

ghost use Rattle.std.specs.Prelude.{◌≡◌, Decides, IfOk, MatchOption};
ghost use Rattle.vat_rules.specs.Rules.{Meets, rules};
ghost use Rattle.vat_rules.specs.OfCalls.{IsHere};
ghost use Rattle.vat_rules.specs.Judged.{IsGoodBy, BreaksFirst};
ghost use Rattle.vat_rules.specs.Glue.Facts.{facts_before};

use crate::asked::asked;
use crate::facts::plain_facts::PlainFacts;
use crate::rule::Rule;
use crate::rules::of_calls::{goes_to_goal, is_here, may_answer};
use crate::rules::of_caps::{binds_each, describes};
use crate::rules::of_connections::{is_open, keeps_embargo};
use crate::rules::of_promises::{keeps_vow, resolves_promise};
use crate::rules::of_results::returns_known;
use rpc_view::Edition;
use std::alloc::{AllocError, Global};
use vat_view::{DecodedRecord, VatState};

/// Whether a record meets a rule of an edition, by the state of the records before it and by what its numbers stand for.
/// GOAL is asked only of a record that meets HERE: what a call asked for is known while it is at the vat.
fn meets(
    alloc: Global,
    edition: Edition,
    rule: Rule,
    state: &VatState,
    event: &DecodedRecord,
    facts: &PlainFacts,
) -> Result<bool, AllocError>
    requires facts { facts.now ≡ facts_before state.now event.now }
    requires here { rule ≡ Rule.Goal → IsHere state.now event.now }
    ensures { IfOk result (λ met. Decides met (Meets edition rule state.now event.now)) }
{
    match rule {
        Rule::Closed => Ok(is_open(edition, state, event)),
        Rule::Ref => state.refers(event),
        Rule::Vow => keeps_vow(state, event),
        Rule::Here => Ok(is_here(state, event)),
        Rule::QNew => Ok(state.opens_free(event)),
        Rule::QUse => Ok(state.uses_questions(event)),
        Rule::XUse => Ok(state.uses_numbers(event)),
        Rule::Goal => goes_to_goal(edition, state, event, facts.target()),
        Rule::Answer => may_answer(alloc, state, event),
        Rule::Desc => describes(alloc, edition, state, event, facts),
        Rule::Count => state.gives_back_held(event),
        Rule::Result => returns_known(edition, state, event, facts.is_late(), facts.caps()),
        Rule::Resolve => Ok(resolves_promise(edition, state, event, facts.promise(), facts.caps())),
        Rule::RecvRef => Ok(binds_each(state, event)),
        Rule::Emb => Ok(keeps_embargo(edition, state, event, facts.target())),
    }
}

/// The first rule of an edition that a record breaks, if it breaks one, by the state of the records before it and by what
/// its numbers stand for. It is asked only the rules that its kind can break.
pub(crate) fn rule_broken(
    alloc: Global,
    edition: Edition,
    state: &VatState,
    event: &DecodedRecord,
    facts: &PlainFacts,
) -> Result<Option<Rule>, AllocError>
    requires { facts.now ≡ facts_before state.now event.now }
    ensures { IfOk result (λ r.
        MatchOption r (IsGoodBy edition state.now event.now)
        (λ rule. BreaksFirst edition rules state.now event.now rule)) }
{
    let asked = asked(event);
    for rule in asked {
        if !meets(alloc, edition, *rule, state, event, facts)? {
            return Ok(Some(*rule));
        }
    }
    Ok(None)
}
