//! Returns that are late: a Finish with releaseResultCaps passed before them.

ghost use Rattle.std.specs.Prelude.{◌≡◌, IfOk, map, take, slice_get};
ghost use Rattle.std.specs.Arc.{arc_value};
ghost use Rattle.vat_rules.specs.Audit.{edition_of};
ghost use Rattle.picture.specs.Places.{is_late_return, is_given_back, question_turn_by, question_turn_of};
ghost use Rattle.picture.specs.Rows.{late_at, late_in, late_number};
ghost use Rattle.picture.specs.Glue.{turn_in};

use crate::passing::record_messages::message_of;
use crate::record_place::Place;
use crate::vat_logs::{body_in, log_of};
use rpc_view::{Edition, RpcMessage};
use std::alloc::{AllocError, Global};
use std::sync::Arc;
use vat_log::{Body, VatLog};
use vat_rules::edition_of;

/// A question as a vat's log has it.
#[derive(Clone, Copy)]
struct LoggedQuestion {
    /// Whether the vat asks it: its Call was sent, and not received.
    asks: bool,
    /// Its connection.
    connection: u32,
    /// Its number there.
    number: u32,
}

/// What a message does to a question: it opens it (false), or finishes it and gives its results back (true).
fn turn_of(message: &RpcMessage, question: u32) -> Option<bool>
    ensures { result ≡ question_turn_of question message.now }
{
    match message {
        RpcMessage::Bootstrap { question: opened } if *opened == question => Some(false),
        RpcMessage::Call { head, .. } if head.question == question => Some(false),
        RpcMessage::Finish {
            question: finished,
            release_result_caps: true,
        } if *finished == question => Some(true),
        _ => None,
    }
}

/// The same of a record that is read by an edition, where it goes the way of the one who asks, on the question's connection.
fn turn_by(
    alloc: Global,
    body: &Body,
    edition: Edition,
    question: LoggedQuestion,
) -> Result<Option<bool>, AllocError>
    ensures { IfOk result (λ turn. turn
        ≡ question_turn_by edition question.asks question.connection question.number body.now) }
{
    if !body.passes(question.asks, question.connection) {
        return Ok(None);
    }
    match message_of(alloc, body, edition)? {
        Some(message) => Ok(turn_of(&message, question.number)),
        None => Ok(None),
    }
}

/// The same of the record of this number of a log.
fn turn_at(
    alloc: Global,
    log: &VatLog,
    number: usize,
    question: LoggedQuestion,
) -> Result<Option<bool>, AllocError>
    ensures { IfOk result (λ turn. turn
        ≡ turn_in (edition_of log.now) question.asks question.connection question.number
        (slice_get log.now.records number)) }
{
    match body_in(log, number) {
        Some(body) => turn_by(alloc, body, edition_of(log), question),
        None => Ok(None),
    }
}

/// Whether the last turn of a question before this record gives its results back. It is seldom far, so it is sought backwards.
fn is_released(
    alloc: Global,
    log: &VatLog,
    number: usize,
    question: LoggedQuestion,
) -> Result<bool, AllocError>
    ensures { IfOk result (λ released. released
        ≡ is_given_back (edition_of log.now) question.asks question.connection question.number
        (take number log.now.records)) }
{
    let mut at = number;
    while at > 0 {
        at -= 1;
        match turn_at(alloc, log, at, question)? {
            Some(released) => return Ok(released),
            None => {}
        }
    }
    Ok(false)
}

/// Whether a message that passes so, by the record of this number, is a Return that is late: a Finish of its question with
/// releaseResultCaps passed in its log since the question was opened.
pub fn is_late(
    alloc: Global,
    log: &VatLog,
    number: usize,
    passage: Option<(bool, u32)>,
    message: &Option<RpcMessage>,
) -> Result<bool, AllocError>
    ensures { IfOk result (λ late. late
        ≡ is_late_return (edition_of log.now) passage message.now (take number log.now.records)) }
{
    match (passage, message) {
        (Some((sent, connection)), Some(RpcMessage::Return { head, .. })) => {
            let question = LoggedQuestion {
                asks: !sent,
                connection,
                number: head.answer,
            };
            is_released(alloc, log, number, question)
        }
        _ => Ok(false),
    }
}

/// Whether a record of a log is a Return that is late.
fn late_in(alloc: Global, log: &VatLog, number: usize, body: &Body) -> Result<bool, AllocError>
    ensures { IfOk result (λ late. late ≡ late_in log.now number body.now) }
{
    let message = message_of(alloc, body, edition_of(log))?;
    is_late(alloc, log, number, body.passage(), &message)
}

/// Whether the record of this number is one, if the log has it.
fn late_number(alloc: Global, log: &VatLog, number: usize) -> Result<bool, AllocError>
    ensures { IfOk result (λ late. late ≡ late_number number log.now) }
{
    match body_in(log, number) {
        Some(body) => late_in(alloc, log, number, body),
        None => Ok(false),
    }
}

/// The same of a place.
pub fn late_at(alloc: Global, logs: &[Arc<VatLog>], place: Place) -> Result<bool, AllocError>
    ensures { IfOk result (λ late. late ≡ late_at (map arc_value logs.now) place) }
{
    match log_of(logs, place.vat) {
        Some(log) => late_number(alloc, log, place.number),
        None => Ok(false),
    }
}
