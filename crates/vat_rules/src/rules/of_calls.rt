//! The rules on calls: where they are, where they go, and when they are answered.

ghost use Rattle.std.specs.Prelude.{◌≡◌, ◌&&◌, ◌||◌, not, Decides, IfOk, IsSomeAnd, IsTrue, Some};
ghost use Rattle.std.specs.Option.{option_copied};
ghost use Rattle.vat_rules.specs.Types.{Object};
ghost use Rattle.decoded_records.specs.Views.{view_of_target};
ghost use Rattle.decoded_records.specs.Calls.{request_of, goal_of, is_at_vat, is_served, is_settled};
ghost use Rattle.vat_rules.specs.Ways.{LeadsTo, GoesFor};
ghost use Rattle.vat_rules.specs.OfCalls.{IsHere, GoesToGoal, MayAnswer};

use crate::rules::leads::{goes_for, leads_to};
use crate::rules::result_paths::distinct_paths;
use rpc_view::{CallHead, Edition, RpcMessage};
use std::alloc::{AllocError, Global};
use vat_view::{DecodedRecord, VatState, View};

/// Whether a call that is delivered or sent on is at the vat.
pub(crate) fn is_here(state: &VatState, event: &DecodedRecord) -> bool
    ensures { Decides result (IsHere state.now event.now) }
{
    match event {
        DecodedRecord::Deliver { call, .. }
        | DecodedRecord::Wire {
            sent: true,
            call,
            message: RpcMessage::Call { .. },
            ..
        } => state.is_at_vat(*call),
        _ => true,
    }
}

/// Whether the goal of a call at the vat leads to this object of the vat.
fn reaches_object(state: &VatState, call: u64, object: u64) -> Result<bool, AllocError>
    requires { IsTrue (is_at_vat call state.now) }
    ensures { IfOk result (λ b.
        Decides b (LeadsTo state.now (goal_of call state.now) (Some (Object object)))) }
{
    let goal = state.goal_of(call)?;
    let object = View::Object(object);
    Ok(leads_to(state, goal.as_ref(), Some(&object)))
}

/// Whether a call at the vat asked for this method of this interface, and its goal goes for this target.
fn is_asked(
    edition: Edition,
    state: &VatState,
    target: Option<&View>,
    call: u64,
    interface: u64,
    method: u16,
) -> Result<bool, AllocError>
    requires { IsTrue (is_at_vat call state.now) }
    ensures { IfOk result (λ b.
        Decides b (IsSomeAnd (request_of call state.now) (λ a.
        GoesFor edition state.now a.goal (option_copied target.entry)
        × (interface ≡ a.interface) × (method ≡ a.method)))) }
{
    let Some(asked) = state.request_of(call)? else {
        return Ok(false);
    };
    if interface != asked.interface || method != asked.method {
        return Ok(false);
    }
    Ok(goes_for(edition, state, asked.goal.as_ref(), target))
}

/// Whether a call that is delivered or sent on, and is at the vat, goes to its goal as the edition has it, and by its own
/// method.
pub(crate) fn goes_to_goal(
    edition: Edition,
    state: &VatState,
    event: &DecodedRecord,
    target: Option<&View>,
) -> Result<bool, AllocError>
    requires target { option_copied target ≡ view_of_target state.now event.now }
    requires here { IsHere state.now event.now }
    ensures { IfOk result (λ b. Decides b (GoesToGoal edition state.now event.now)) }
{
    match event {
        DecodedRecord::Deliver { call, object } => reaches_object(state, *call, *object),
        DecodedRecord::Wire {
            sent: true,
            call,
            message: RpcMessage::Call {
                head: CallHead {
                    interface,
                    method,
                    ..
                },
                ..
            },
            ..
        } => is_asked(edition, state, target, *call, *interface, *method),
        _ => Ok(true),
    }
}

/// Whether a call was delivered here or is that of a received Bootstrap, and has no answer or fault.
fn awaits_answer(state: &VatState, call: u64) -> bool
    ensures { result ≡ (is_served call state.now && not (is_settled call state.now)) }
{
    state.is_served(call) && !state.is_settled(call)
}

/// Whether a call is at the vat, was delivered here or is that of a received Bootstrap.
fn was_here(state: &VatState, call: u64) -> bool
    ensures { result ≡ (is_at_vat call state.now || is_served call state.now) }
{
    state.is_at_vat(call) || state.is_served(call)
}

/// Whether a call that is answered or faulted may be.
pub(crate) fn may_answer(
    alloc: Global,
    state: &VatState,
    event: &DecodedRecord,
) -> Result<bool, AllocError>
    ensures { IfOk result (λ may. Decides may (MayAnswer state.now event.now)) }
{
    match event {
        DecodedRecord::Answer { call, results } => {
            Ok(awaits_answer(state, *call) && distinct_paths(alloc, results.as_slice())?)
        }
        DecodedRecord::AnswerBy { call, .. } => Ok(awaits_answer(state, *call)),
        DecodedRecord::Fault { call } => Ok(was_here(state, *call) && !state.is_settled(*call)),
        _ => Ok(true),
    }
}
