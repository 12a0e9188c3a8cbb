//! What a record tells of calls, by the tables before it.

ghost use Rattle.std.specs.Prelude.{◌≡◌, IfOk};
ghost use Rattle.vat_view.specs.Glue.Tables.{bound_at};
ghost use Rattle.number_tables.specs.Glue.QuestionTables.{question_at, late_by, opening_call_in};
ghost use Rattle.vat_view.specs.Glue.Asking.{taken_from_by};
ghost use Rattle.vat_view.specs.Glue.CallTables.{arriving_call, bootstrap_call, begins_call, begun_by, moved, sent_step, received_step, step_by};

use crate::lookups::meaning::view_of_reference;
use crate::lookups::settling::taken_from_by;
use crate::lookups::table_answers::view_of_target;
use crate::tables::references::BoundReferences;
use decoded_records::{DecodedRecord, Request, TableKey, View};
use number_tables::{CallChange, CallState, ExportsImports, Questions, is_late, opening_call};
use rpc_view::{CallHead, Outcome, ReturnHead, RpcMessage};
use std::alloc::AllocError;

/// A call that comes to the vat.
fn arriving_call(goal: Option<View>, interface: u64, method: u16) -> CallState
    ensures { result ≡ arriving_call goal interface method }
{
    let asked = Request {
        goal,
        interface,
        method,
    };
    CallState {
        asked: Some(asked),
        at_vat: true,
        served: false,
        settled: false,
        known: false,
    }
}

/// The call of a Bootstrap, which is served where that was received.
fn bootstrap_call(received: bool) -> CallState
    ensures { result ≡ bootstrap_call received }
{
    CallState {
        asked: None,
        at_vat: false,
        served: received,
        settled: false,
        known: false,
    }
}

/// Whether a record begins a call: MAKE, a Bootstrap, and a received Call do.
#[inline(always)]
pub(crate) fn begins_call(event: &DecodedRecord) -> bool
    ensures { result ≡ begins_call event.now }
{
    match event {
        DecodedRecord::Make { .. } => true,
        DecodedRecord::Wire { sent, message, .. } => match message {
            RpcMessage::Bootstrap { .. } => true,
            RpcMessage::Call { .. } => !*sent,
            _ => false,
        },
        _ => false,
    }
}

/// The call that a record begins, and how far it has come.
pub(crate) fn call_begun(
    bound: &BoundReferences,
    lives: &ExportsImports,
    questions: &Questions,
    event: &DecodedRecord,
) -> Result<Option<(u64, CallState)>, AllocError>
    ensures { IfOk result
        (λ begun. begun ≡ begun_by (bound_at bound.now) lives.now
        (question_at questions.now) event.now) }
{
    match event {
        DecodedRecord::Make {
            call,
            reference,
            interface,
            method,
        } => {
            let goal = view_of_reference(bound, *reference)?;
            Ok(Some((*call, arriving_call(goal, *interface, *method))))
        }
        DecodedRecord::Wire {
            sent,
            call,
            message: RpcMessage::Bootstrap { .. },
            ..
        } => Ok(Some((*call, bootstrap_call(!*sent)))),
        DecodedRecord::Wire {
            sent: false,
            call,
            message: RpcMessage::Call {
                head: CallHead {
                    interface,
                    method,
                    ..
                },
                ..
            },
            ..
        } => {
            let goal = view_of_target(bound, lives, questions, event)?;
            Ok(Some((*call, arriving_call(goal, *interface, *method))))
        }
        _ => Ok(None),
    }
}

/// The change of a call, if there is one.
fn moved(step: CallChange, call: Option<u64>) -> Option<(u64, CallChange)>
    ensures { result ≡ moved step call }
{
    match call {
        Some(call) => Some((call, step)),
        None => None,
    }
}

/// What a sent record tells of a call that was begun before.
fn sent_step(questions: &Questions, event: &DecodedRecord) -> Option<(u64, CallChange)>
    ensures { result ≡ sent_step (λ q. opening_call_in (question_at questions.now q)) event.now }
{
    let DecodedRecord::Wire {
        sent: true,
        connection,
        call,
        message,
        ..
    } = event
    else {
        return None;
    };
    match message {
        RpcMessage::Call { .. } => Some((*call, CallChange::Left)),
        RpcMessage::Return {
            head: ReturnHead { answer: number, .. },
            outcome: Outcome::Exception | Outcome::Canceled,
        } => {
            let question = TableKey::of_receiver(true, *connection, *number);
            moved(CallChange::Left, opening_call(questions, question))
        }
        _ => None,
    }
}

/// What a received record tells of a call that was begun before.
fn received_step(questions: &Questions, event: &DecodedRecord) -> Option<(u64, CallChange)>
    ensures { result ≡ received_step
        (late_by (question_at questions.now) event.now)
        (taken_from_by (question_at questions.now) event.now)
        (λ q. opening_call_in (question_at questions.now q)) event.now }
{
    let DecodedRecord::Wire {
        sent: false,
        connection,
        message,
        ..
    } = event
    else {
        return None;
    };
    match message {
        RpcMessage::Return {
            head: ReturnHead { answer: number, .. },
            outcome: Outcome::Results(_),
        } => {
            if is_late(questions, event) {
                return None;
            }
            let question = TableKey::of_receiver(false, *connection, *number);
            moved(CallChange::Known, opening_call(questions, question))
        }
        RpcMessage::Return {
            head: ReturnHead { answer: number, .. },
            outcome: Outcome::TakeFrom(_),
        } => {
            if taken_from_by(questions, event).is_none() {
                return None;
            }
            let question = TableKey::of_receiver(false, *connection, *number);
            moved(CallChange::Known, opening_call(questions, question))
        }
        _ => None,
    }
}

/// What a record tells of a call that was begun before.
#[inline(always)]
pub(crate) fn step_of(questions: &Questions, event: &DecodedRecord) -> Option<(u64, CallChange)>
    ensures { result ≡ step_by (question_at questions.now) event.now }
{
    match event {
        DecodedRecord::Deliver { call, .. } => Some((*call, CallChange::Delivered)),
        DecodedRecord::Answer { call, .. } | DecodedRecord::AnswerBy { call, .. } => {
            Some((*call, CallChange::Answered))
        }
        DecodedRecord::Fault { call } => Some((*call, CallChange::Faulted)),
        DecodedRecord::Wire { sent: true, .. } => sent_step(questions, event),
        DecodedRecord::Wire { sent: false, .. } => received_step(questions, event),
        _ => None,
    }
}
