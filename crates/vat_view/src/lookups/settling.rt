//! What a record settles, so that views turn.

ghost use Rattle.std.specs.Prelude.{◌≡◌, None, IfOk, if◌then◌else◌};
ghost use Rattle.vat_view.specs.Glue.Tables.{bound_at};
ghost use Rattle.number_tables.specs.Glue.QuestionTables.{question_at};
ghost use Rattle.number_tables.specs.Glue.LifeTables.{held_origin};
ghost use Rattle.vat_view.specs.Glue.Asking.{question_taken_here, named_answerer, call_taken_here, taken_from_by};
ghost use Rattle.vat_view.specs.Glue.TurnTables.{promise_of, results_by, import_by, settled_by, may_turn, IsTurned};

use crate::lookups::turning::turned_by;
use crate::record::unsettled::Unsettled;
use crate::tables::references::BoundReferences;
use crate::tables::turns::settlements::Settling;
use decoded_records::{DecodedRecord, TableKey, View};
use number_tables::{ExportsImports, Questions, call_of, is_late, opening_call};
use rpc_view::{Outcome, ReturnHead, RpcMessage};
use std::alloc::{AllocError, Global};

/// Whether a record may turn views, by its kind: whether it may settle something, or resolves a promise.
#[inline(always)]
pub(crate) fn may_turn(event: &DecodedRecord) -> bool
    ensures { result ≡ may_turn event.now }
{
    match event {
        DecodedRecord::Fulfil { .. }
        | DecodedRecord::Break { .. }
        | DecodedRecord::Answer { .. }
        | DecodedRecord::AnswerBy { .. }
        | DecodedRecord::Fault { .. } => true,
        DecodedRecord::Wire { sent, message, .. } => match message {
            RpcMessage::Return { .. } => !*sent,
            RpcMessage::Resolve { .. } => true,
            _ => false,
        },
        _ => false,
    }
}

/// The own promise for which a reference stands.
fn promise_of(bound: &BoundReferences, reference: u64) -> Option<Unsettled>
    ensures { result ≡ promise_of (bound_at bound.now reference) }
{
    match bound.of(reference) {
        Some(View::Promise(promise)) => Some(Unsettled::Promise(*promise)),
        _ => None,
    }
}

/// The call of a question that was opened.
fn results_of(questions: &Questions, question: TableKey) -> Option<Unsettled>
    ensures { result ≡ results_by (question_at questions.now question) }
{
    match opening_call(questions, question) {
        Some(call) => Some(Unsettled::Results(call)),
        None => None,
    }
}

/// The import for which a number in life stands.
fn import_of(lives: &ExportsImports, number: TableKey) -> Option<Unsettled>
    ensures { result ≡ import_by (held_origin lives.now number) }
{
    match lives.origin_of(number) {
        Some(origin) => Some(Unsettled::Import(origin.number, origin.place)),
        None => None,
    }
}

/// What a record settles, by the tables before it.
fn settled_by(
    questions: &Questions,
    lives: &ExportsImports,
    bound: &BoundReferences,
    event: &DecodedRecord,
) -> Option<Unsettled>
    ensures { result ≡ settled_by (bound_at bound.now) lives.now
        (question_at questions.now) event.now }
{
    match event {
        DecodedRecord::Fulfil { reference, .. } | DecodedRecord::Break { reference } => {
            promise_of(bound, *reference)
        }
        DecodedRecord::Answer { call, .. }
        | DecodedRecord::AnswerBy { call, .. }
        | DecodedRecord::Fault { call } => Some(Unsettled::Results(*call)),
        DecodedRecord::Wire {
            sent: false,
            message: RpcMessage::Return {
                outcome: Outcome::Elsewhere,
                ..
            },
            ..
        } => None,
        DecodedRecord::Wire {
            sent: false,
            connection,
            message: RpcMessage::Return {
                head: ReturnHead { answer: number, .. },
                ..
            },
            ..
        } => results_of(
            questions,
            TableKey::of_receiver(false, *connection, *number),
        ),
        DecodedRecord::Wire {
            sent: false,
            connection,
            message: RpcMessage::Resolve {
                promise: number,
                ..
            },
            ..
        } => import_of(lives, TableKey::of_sender(false, *connection, *number)),
        _ => None,
    }
}

/// A call, unless the Return that takes its results is late.
fn unless_late(late: bool, call: Option<u64>) -> Option<u64>
    ensures { result ≡ (if late then None else call) }
{
    if late { None } else { call }
}

/// The question whose results a received record takes: one of its sender's.
fn question_taken_here(event: &DecodedRecord) -> Option<TableKey>
    ensures { result ≡ question_taken_here event.now }
{
    match event {
        DecodedRecord::Wire {
            sent: false,
            connection,
            message: RpcMessage::Return {
                outcome: Outcome::TakeFrom(number),
                ..
            },
            ..
        } => Some(TableKey {
            connection: *connection,
            ours: false,
            number: *number,
        }),
        _ => None,
    }
}

/// The call that ANSWERBY names as the one whose results are the first's.
fn named_answerer(event: &DecodedRecord) -> Option<u64>
    ensures { result ≡ named_answerer event.now }
{
    match event {
        DecodedRecord::AnswerBy { by, .. } => Some(*by),
        _ => None,
    }
}

/// The call whose results a received Return takes that isn't late, by the table of questions before it.
fn call_taken_here(questions: &Questions, event: &DecodedRecord) -> Option<u64>
    ensures { result ≡ call_taken_here (question_at questions.now) event.now }
{
    match question_taken_here(event) {
        Some(question) => unless_late(is_late(questions, event), call_of(questions, question)),
        None => None,
    }
}

/// The call by whose results a record answers another, by the table of questions before it.
#[inline]
pub(crate) fn taken_from_by(questions: &Questions, event: &DecodedRecord) -> Option<u64>
    ensures { result ≡ taken_from_by (question_at questions.now) event.now }
{
    named_answerer(event).or(call_taken_here(questions, event))
}

/// What a record settles, the call by whose results it does, and where it turns what waits for that, by the tables
/// before it.
pub(crate) fn settling_of(
    alloc: Global,
    questions: &Questions,
    lives: &ExportsImports,
    bound: &BoundReferences,
    event: &DecodedRecord,
) -> Result<Settling, AllocError>
    ensures settled { IfOk result (λ settling. settling.settled
        ≡ settled_by (bound_at bound.now) lives.now (question_at questions.now) event.now) }
    ensures by { IfOk result
        (λ settling. settling.by ≡ taken_from_by (question_at questions.now) event.now) }
    ensures turned { IfOk result (λ settling. IsTurned event.now settling.turned) }
{
    Ok(Settling {
        settled: settled_by(questions, lives, bound, event),
        by: taken_from_by(questions, event),
        turned: turned_by(alloc, event)?,
    })
}
