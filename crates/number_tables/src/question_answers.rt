//! What the table of questions answers.

ghost use Rattle.std.specs.Prelude.{◌≡◌};
ghost use Rattle.number_tables.specs.Glue.QuestionTables.{question_at, free_in, unfinished_in, finished_in, unreturned_in, tail_in, taken_in, opening_call_in, call_by, late_by, given_back_by};

use crate::question_table::Questions;
use decoded_records::{DecodedRecord, TableKey};
use rpc_view::{ReturnHead, RpcMessage};

/// Whether a question is free: over, or behind a Return that says that no Finish is needed.
pub fn is_free(questions: &Questions, question: TableKey) -> bool
    ensures { result ≡ free_in (question_at questions.now question) }
{
    match questions.of(question) {
        Some(known) => known.is_over() || known.returned_lightly,
        None => true,
    }
}

/// Whether a question is opened and not finished.
pub fn is_unfinished(questions: &Questions, question: TableKey) -> bool
    ensures { result ≡ unfinished_in (question_at questions.now question) }
{
    match questions.of(question) {
        Some(known) => !known.finished,
        None => false,
    }
}

/// Whether a question is finished.
pub fn is_finished(questions: &Questions, question: TableKey) -> bool
    ensures { result ≡ finished_in (question_at questions.now question) }
{
    match questions.of(question) {
        Some(known) => known.finished,
        None => false,
    }
}

/// Whether a question is opened and not returned.
pub fn is_unreturned(questions: &Questions, question: TableKey) -> bool
    ensures { result ≡ unreturned_in (question_at questions.now question) }
{
    match questions.of(question) {
        Some(known) => !known.returned,
        None => false,
    }
}

/// Whether a question's last opening is a Call whose results are to be sent elsewhere.
pub fn is_tail(questions: &Questions, question: TableKey) -> bool
    ensures { result ≡ tail_in (question_at questions.now question) }
{
    match questions.of(question) {
        Some(known) => known.tail,
        None => false,
    }
}

/// Whether a question's results were taken.
pub fn is_taken(questions: &Questions, question: TableKey) -> bool
    ensures { result ≡ taken_in (question_at questions.now question) }
{
    match questions.of(question) {
        Some(known) => known.taken,
        None => false,
    }
}

/// The call of a question's last opening.
pub fn opening_call(questions: &Questions, question: TableKey) -> Option<u64>
    ensures { result ≡ opening_call_in (question_at questions.now question) }
{
    match questions.of(question) {
        Some(known) => Some(known.call),
        None => None,
    }
}

/// The call of a question that isn't over.
pub fn call_of(questions: &Questions, question: TableKey) -> Option<u64>
    ensures { result ≡ call_by (question_at questions.now question) }
{
    match questions.of(question) {
        Some(known) if !known.is_over() => Some(known.call),
        _ => None,
    }
}

/// Whether a record is a late Return.
pub fn is_late(questions: &Questions, event: &DecodedRecord) -> bool
    ensures { result ≡ late_by (question_at questions.now) event.now }
{
    let DecodedRecord::Wire {
        sent,
        connection,
        message: RpcMessage::Return {
            head: ReturnHead { answer: number, .. },
            ..
        },
        ..
    } = event
    else {
        return false;
    };
    let question = TableKey::of_receiver(*sent, *connection, *number);
    match questions.of(question) {
        Some(known) => known.released,
        None => false,
    }
}

/// The introductions that a Return or a Finish gives back.
pub fn given_back_by<'a>(questions: &'a Questions, event: &DecodedRecord) -> &'a [TableKey]
    ensures { result.now ≡ given_back_by (question_at questions.now) event.now }
{
    match event {
        DecodedRecord::Wire {
            sent,
            connection,
            message: RpcMessage::Return {
                head: ReturnHead {
                    answer: number,
                    release_param_caps: true,
                    ..
                },
                ..
            },
            ..
        } => questions.asked_in(TableKey::of_receiver(*sent, *connection, *number)),
        DecodedRecord::Wire {
            sent,
            connection,
            message: RpcMessage::Finish {
                question: number,
                release_result_caps: true,
            },
            ..
        } => questions.brought_in(TableKey::of_sender(*sent, *connection, *number)),
        _ => &[],
    }
}
