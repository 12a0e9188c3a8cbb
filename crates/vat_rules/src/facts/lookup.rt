//! What the numbers of a record stand for.

ghost use Rattle.std.specs.Prelude.{◌≡◌, ◌++◌, [], map, option_and_then, IfOk};
ghost use Rattle.decoded_records.specs.Bindings.{new_references, named_references};
ghost use Rattle.decoded_records.specs.Views.{field_view, view_of_number, view_of_reference, view_of_target, views_of_descriptors};
ghost use Rattle.vat_rules.specs.Telling.{question_view, taken_view, promise_view, released_view};
ghost use Rattle.vat_rules.specs.Glue.Facts.{facts_before};
ghost use Rattle.vat_rules.specs.Glue.Roles.{view_in_role};
ghost use Rattle.vat_rules.specs.declared.facts.role.Role.TheVariants.{Question, Promise, Target, Released};

use crate::facts::plain_facts::PlainFacts;
use crate::facts::role::Role;
use crate::facts::view_list::ViewList;
use cap_frame::Path;
use rpc_view::RpcMessage;
use std::alloc::{AllocError, Global};
use vat_view::{DecodedRecord, TableKey, VatState, View};

/// What a question stands for: its call, as the field at the empty path.
fn view_of_question(
    alloc: Global,
    state: &VatState,
    question: TableKey,
) -> Result<Option<View>, AllocError>
    ensures { IfOk result (λ v. v ≡ field_view question [] state.now) }
{
    match state.call_of(question) {
        Some(call) => Ok(Some(View::Field(call, Path::new(Vec::new(alloc))?))),
        None => Ok(None),
    }
}

/// What a question stands for, if a record names one.
#[inline]
fn view_of_named(
    alloc: Global,
    state: &VatState,
    question: Option<TableKey>,
) -> Result<Option<View>, AllocError>
    ensures { IfOk result
        (λ v. v ≡ option_and_then (λ q. field_view q [] state.now) question) }
{
    match question {
        Some(question) => view_of_question(alloc, state, question),
        None => Ok(None),
    }
}

/// What an export or import number stands for, if a record names one.
fn view_of_number(state: &VatState, number: Option<TableKey>) -> Result<Option<View>, AllocError>
    ensures { IfOk result
        (λ v. v ≡ option_and_then (λ i. view_of_number i state.now) number) }
{
    match number {
        Some(number) => state.view_of_number(number),
        None => Ok(None),
    }
}

/// What the question stands for that a record returns or finishes.
fn question_view(
    alloc: Global,
    state: &VatState,
    event: &DecodedRecord,
) -> Result<Option<View>, AllocError>
    ensures { IfOk result (λ v. v ≡ question_view state.now event.now) }
{
    let question = event.question_returned().or(event.question_finished());
    view_of_named(alloc, state, question)
}

/// What the question stands for whose results a record takes.
fn taken_view(
    alloc: Global,
    state: &VatState,
    event: &DecodedRecord,
) -> Result<Option<View>, AllocError>
    ensures { IfOk result (λ v. v ≡ taken_view state.now event.now) }
{
    view_of_named(alloc, state, event.question_taken())
}

/// What the descriptors of a record stand for that may be applied next. Most records have one at most.
fn views_of_descriptors(
    alloc: Global,
    state: &VatState,
    event: &DecodedRecord,
) -> Result<ViewList, AllocError>
    ensures { IfOk result (λ views. views ≡ views_of_descriptors state.now event.now) }
{
    match event.descriptors() {
        [] => Ok(ViewList::new(Vec::new(alloc))),
        [descriptor] => Ok(ViewList::one(state.view_of_descriptor(event, descriptor)?)),
        _ => Ok(ViewList::new(state.views_of_descriptors(event)?)),
    }
}

/// The number in a role of a record that may be applied next, with what it stands for.
fn number_in_role(
    alloc: Global,
    state: &VatState,
    event: &DecodedRecord,
) -> Result<Option<(Role, View)>, AllocError>
    ensures question { IfOk result
        (λ n. view_in_role n Question ≡ question_view state.now event.now) }
    ensures promise { IfOk result
        (λ n. view_in_role n Promise ≡ promise_view state.now event.now) }
    ensures target { IfOk result
        (λ n. view_in_role n Target ≡ view_of_target state.now event.now) }
    ensures released { IfOk result
        (λ n. view_in_role n Released ≡ released_view state.now event.now) }
{
    let DecodedRecord::Wire { message, .. } = event else {
        return Ok(None);
    };
    let (role, view) = match message {
        RpcMessage::Call { .. } | RpcMessage::Disembargo { .. } => {
            (Role::Target, state.view_of_target(event)?)
        }
        RpcMessage::Return { .. } | RpcMessage::Finish { .. } => {
            (Role::Question, question_view(alloc, state, event)?)
        }
        RpcMessage::Resolve { .. } => {
            (
                Role::Promise,
                view_of_number(state, event.promise_resolved())?,
            )
        }
        RpcMessage::Release { .. } => {
            (
                Role::Released,
                view_of_number(state, event.number_released())?,
            )
        }
        _ => return Ok(None),
    };
    match view {
        Some(view) => Ok(Some((role, view))),
        None => Ok(None),
    }
}

/// What the numbers of a record stand for that may be applied next, apart from its references.
pub(crate) fn facts_before(
    alloc: Global,
    state: &VatState,
    event: &DecodedRecord,
) -> Result<PlainFacts, AllocError>
    ensures { IfOk result (λ facts. facts ≡ facts_before state.now event.now) }
{
    let DecodedRecord::Wire { .. } = event else {
        return Ok(PlainFacts::nothing(alloc));
    };
    let number = number_in_role(alloc, state, event)?;
    let taken = taken_view(alloc, state, event)?;
    let caps = views_of_descriptors(alloc, state, event)?;
    Ok(PlainFacts::new(number, taken, caps, state.is_late(event)))
}

/// What references stand for, each of several.
fn views_of_each(
    alloc: Global,
    state: &VatState,
    references: &[u64],
) -> Result<ViewList, AllocError>
    ensures { IfOk result (λ views. views ≡ map (view_of_reference state.now) references.now) }
{
    let mut views = Vec::with_capacity(alloc, references.len())?;
    for reference in references {
        views.push(state.view_of_reference(*reference)?)?;
    }
    Ok(ViewList::new(views))
}

/// What references stand for. Most records have one.
fn views_of(alloc: Global, state: &VatState, references: &[u64]) -> Result<ViewList, AllocError>
    ensures { IfOk result (λ views. views ≡ map (view_of_reference state.now) references.now) }
{
    match references {
        [reference] => Ok(ViewList::one(state.view_of_reference(*reference)?)),
        _ => views_of_each(alloc, state, references),
    }
}

/// What the references of a call's results stand for.
fn views_of_results(
    alloc: Global,
    state: &VatState,
    results: &[(u64, Path)],
) -> Result<ViewList, AllocError>
    ensures { IfOk result (λ views.
        views ≡ map (view_of_reference state.now) (map (λ answer. answer.0) results.now)) }
{
    if let [answer] = results {
        return Ok(ViewList::one(state.view_of_reference(answer.0)?));
    }
    let mut views = Vec::with_capacity(alloc, results.len())?;
    for answer in results {
        views.push(state.view_of_reference(answer.0)?)?;
    }
    Ok(ViewList::new(views))
}

/// What the references stand for that a record binds or names, in its order.
pub(crate) fn views_of_references(
    alloc: Global,
    state: &VatState,
    event: &DecodedRecord,
) -> Result<ViewList, AllocError>
    ensures { IfOk result (λ views. views ≡ map
        (view_of_reference state.now) (new_references event.now ++ named_references event.now)) }
{
    match event {
        DecodedRecord::Answer { results, .. } => views_of_results(alloc, state, results.as_slice()),
        DecodedRecord::Fulfil { reference, to } => views_of(alloc, state, &[*reference, *to]),
        DecodedRecord::Break { reference } | DecodedRecord::Make { reference, .. } => {
            Ok(ViewList::one(state.view_of_reference(*reference)?))
        }
        DecodedRecord::Wire { references, .. } => views_of(alloc, state, references.as_slice()),
        _ => views_of(alloc, state, event.new_references()),
    }
}
