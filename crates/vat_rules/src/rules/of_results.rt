//! The rule on Returns: what is sent back is what came back.

ghost use Rattle.std.specs.Prelude.{◌≡◌, Some, Decides, IfOk, IsFalse, IsSomeAnd};
ghost use Rattle.std.specs.List.{AllByRecursion};
ghost use Rattle.decoded_records.specs.Questions.{is_tail, is_late, opening, call_at, call_of};
ghost use Rattle.decoded_records.specs.Views.{views_of_descriptors};
ghost use Rattle.decoded_records.specs.Calls.{answered_by};
ghost use Rattle.vat_rules.specs.OfResults.{ReturnsField, ReturnsFields, ReturnsTaken, ReturnsKnown};

use crate::rules::leads::went_on;
use crate::rules::of_caps::{is_cap_at, is_own_number, view_at};
use cap_frame::Path;
use rpc_view::{Edition, Outcome, ReturnHead, RpcMessage};
use std::alloc::AllocError;
use vat_view::{DecodedRecord, Number, TableKey, VatState, View};

/// Whether a call's result at a path went on to what the descriptor at this place stands for, if that isn't none.
fn returns_field(
    edition: Edition,
    state: &VatState,
    event: &DecodedRecord,
    caps: &[Option<View>],
    call: u64,
    path: &Path,
    place: usize,
) -> Result<bool, AllocError>
    requires { caps.now ≡ views_of_descriptors state.now event.now }
    ensures { IfOk result (λ b.
        Decides b (ReturnsField edition state.now event.now call (path.now, place))) }
{
    let descriptor = event.descriptors().get(place);
    if !is_cap_at(descriptor) {
        return Ok(true);
    }
    let from = View::Field(call, path.copy()?);
    let own = is_own_number(descriptor);
    Ok(went_on(edition, own, state, Some(&from), view_at(caps, place)))
}

/// Whether a call's result went on to what is sent at each of these paths.
fn returns_each(
    edition: Edition,
    state: &VatState,
    event: &DecodedRecord,
    caps: &[Option<View>],
    call: u64,
    fields: &[(Path, u32)],
) -> Result<bool, AllocError>
    requires { caps.now ≡ views_of_descriptors state.now event.now }
    ensures { IfOk result (λ b.
        Decides b (AllByRecursion (ReturnsField edition state.now event.now call) fields.now)) }
{
    for (path, place) in fields {
        if !returns_field(edition, state, event, caps, call, path, *place as usize)? {
            return Ok(false);
        }
    }
    Ok(true)
}

/// Whether a call's results are known, and went on to what is sent at each of these paths.
fn returns_fields(
    edition: Edition,
    state: &VatState,
    event: &DecodedRecord,
    caps: &[Option<View>],
    fields: &[(Path, u32)],
    call: u64,
) -> Result<bool, AllocError>
    requires { caps.now ≡ views_of_descriptors state.now event.now }
    ensures { IfOk result (λ b. Decides b (ReturnsFields edition state.now event.now fields.now call)) }
{
    if !state.is_known(call) {
        return Ok(false);
    }
    returns_each(edition, state, event, caps, call, fields)
}

/// Whether a question wasn't asked with its results to be sent elsewhere, and those of its call are known, and went
/// on to what is sent at each of these paths.
fn returns_results(
    edition: Edition,
    state: &VatState,
    event: &DecodedRecord,
    caps: &[Option<View>],
    fields: &[(Path, u32)],
    question: TableKey,
) -> Result<bool, AllocError>
    requires { caps.now ≡ views_of_descriptors state.now event.now }
    ensures { IfOk result (λ b.
        Decides b (IsFalse (is_tail (opening question state.now)) × IsSomeAnd
        (call_at (opening question state.now)) (ReturnsFields edition state.now event.now fields.now))) }
{
    if state.is_tail(question) {
        return Ok(false);
    }
    match state.opening_call(question) {
        Some(call) => returns_fields(edition, state, event, caps, fields, call),
        None => Ok(false),
    }
}

/// Whether a call was answered by another, which is this one.
fn is_answered_by(state: &VatState, from: Option<u64>, call: u64) -> bool
    ensures { Decides result (IsSomeAnd (answered_by call state.now) (λ by. from ≡ Some by)) }
{
    match (from, state.answered_by(call)) {
        (Some(from), Some(by)) => from == by,
        _ => false,
    }
}

/// Whether a call was answered by another, which is the one whose results are taken; by the later edition, the call's
/// own may be taken too.
fn returns_taken(edition: Edition, state: &VatState, from: Option<u64>, call: u64) -> bool
    ensures { Decides result (ReturnsTaken edition state.now from call) }
{
    match edition {
        Edition::First => is_answered_by(state, from, call),
        Edition::Later => is_answered_by(state, from, call) || from == Some(call),
    }
}

/// Whether the call of a question was answered by the one for which the question stands whose results are taken, or, by
/// the later edition, that question stands for the call itself.
fn takes_answer(edition: Edition, state: &VatState, question: TableKey, taken: TableKey) -> bool
    ensures { Decides result (IsSomeAnd (call_at (opening question state.now))
        (ReturnsTaken edition state.now (call_of taken state.now))) }
{
    match state.opening_call(question) {
        Some(call) => returns_taken(edition, state, state.call_of(taken), call),
        None => false,
    }
}

/// Whether a sent Return that isn't late gives results that are known, and at each path what they went on to, or says truly
/// where else they went or from where they may be taken by an edition; and one that is canceled comes after a Finish.
pub(crate) fn returns_known(
    edition: Edition,
    state: &VatState,
    event: &DecodedRecord,
    late: bool,
    caps: &[Option<View>],
) -> Result<bool, AllocError>
    requires late { late ≡ is_late state.now event.now }
    requires caps { caps.now ≡ views_of_descriptors state.now event.now }
    ensures { IfOk result (λ b. Decides b (ReturnsKnown edition state.now event.now)) }
{
    let DecodedRecord::Wire {
        sent: true,
        connection,
        message: RpcMessage::Return {
            head: ReturnHead { answer, .. },
            outcome,
        },
        ..
    } = event
    else {
        return Ok(true);
    };
    let question = Number::Answer(*answer).on(*connection);
    match outcome {
        Outcome::Canceled => Ok(state.is_finished(question)),
        _ if late => Ok(true),
        Outcome::Results(payload) => {
            returns_results(
                edition,
                state,
                event,
                caps,
                payload.fields.as_slice(),
                question,
            )
        }
        Outcome::Elsewhere => Ok(state.is_tail(question)),
        Outcome::TakeFrom(number) => {
            let taken = Number::Question(*number).on(*connection);
            Ok(takes_answer(edition, state, question, taken))
        }
        Outcome::Exception => Ok(true),
    }
}
