//! Calls that never end: no record of their log, from their own on, says so.

ghost use Rattle.std.specs.Prelude.{◌≡◌, IfOk, drop, slice_get};
ghost use Rattle.std.specs.List.{list_any};
ghost use Rattle.vat_rules.specs.Audit.{edition_of};
ghost use Rattle.picture.specs.Endings.{brings_return, call_begun, ends_call, ends_made, is_return_to, is_unended, says_end};
ghost use Rattle.picture.specs.Places.{passes_in};

use crate::passing::record_messages::message_of;
use crate::vat_logs::body_in;
use rpc_view::{Edition, RpcMessage};
use std::alloc::{AllocError, Global};
use vat_log::{Body, VatLog};
use vat_rules::edition_of;

/// A call that a record makes or sends.
#[derive(Clone, Copy)]
pub struct BegunCall {
    /// Its number in the log.
    pub call: u64,
    /// Where it is sent, its connection and its question there.
    pub question: Option<(u32, u32)>,
}

/// The call that a record makes, or sends by this message.
fn call_begun(body: &Body, message: &Option<RpcMessage>) -> Option<BegunCall>
    ensures { result ≡ call_begun body.now message.now }
{
    match (body, message) {
        (Body::Make { call, .. }, _) => Some(BegunCall {
            call: *call,
            question: None,
        }),
        (
            Body::Send {
                connection,
                call,
                ..
            },
            Some(RpcMessage::Bootstrap { question }),
        ) => Some(BegunCall {
            call: *call,
            question: Some((*connection, *question)),
        }),
        (
            Body::Send {
                connection,
                call,
                ..
            },
            Some(RpcMessage::Call { head, .. }),
        ) => Some(BegunCall {
            call: *call,
            question: Some((*connection, head.question)),
        }),
        _ => None,
    }
}

/// Whether a record says that a call ended: its results, or that it has none.
fn says_end(body: &Body, call: u64) -> bool
    ensures { result ≡ says_end call body.now }
{
    match body {
        Body::Answer { call: ended, .. } => *ended == call,
        Body::Fault { call: ended } => *ended == call,
        Body::AnswerBy { call: ended, .. } => *ended == call,
        _ => false,
    }
}

/// Whether a record says so of a call that was made, or sends it.
fn ends_made(body: &Body, call: u64) -> bool
    ensures { result ≡ ends_made call body.now }
{
    match body {
        Body::Send { call: sent, .. } => *sent == call,
        body => says_end(body, call),
    }
}

/// Whether a message is the Return to this question.
fn is_return_to(message: &Option<RpcMessage>, question: u32) -> bool
    ensures { result ≡ is_return_to question message.now }
{
    match message {
        Some(RpcMessage::Return { head, .. }) => head.answer == question,
        _ => false,
    }
}

/// Whether a record receives it.
fn brings_return(
    alloc: Global,
    body: &Body,
    edition: Edition,
    connection: u32,
    question: u32,
) -> Result<bool, AllocError>
    ensures { IfOk result
        (λ brings. brings ≡ brings_return edition connection question body.now) }
{
    if !body.passes(false, connection) {
        return Ok(false);
    }
    let message = message_of(alloc, body, edition)?;
    Ok(is_return_to(&message, question))
}

/// Whether a record ends a call.
fn ends_call(
    alloc: Global,
    body: &Body,
    edition: Edition,
    begun: BegunCall,
) -> Result<bool, AllocError>
    ensures { IfOk result
        (λ ends. ends ≡ ends_call edition begun body.now) }
{
    match begun.question {
        None => Ok(ends_made(body, begun.call)),
        Some(_) if says_end(body, begun.call) => Ok(true),
        Some((connection, question)) => {
            brings_return(alloc, body, edition, connection, question)
        }
    }
}

/// Whether the record of this number of a log does, if the log has it.
fn ends_at(alloc: Global, log: &VatLog, number: usize, begun: BegunCall) -> Result<bool, AllocError>
    ensures { IfOk result (λ ends. ends
        ≡ passes_in (ends_call (edition_of log.now) begun) (slice_get log.now.records number)) }
{
    match body_in(log, number) {
        Some(body) => ends_call(alloc, body, edition_of(log), begun),
        None => Ok(false),
    }
}

/// Whether a record of a log, from this one on, ends a call.
fn is_ended(
    alloc: Global,
    log: &VatLog,
    number: usize,
    begun: BegunCall,
) -> Result<bool, AllocError>
    ensures { IfOk result (λ ended. ended
        ≡ list_any (ends_call (edition_of log.now) begun) (drop number log.now.records)) }
{
    for at in number..log.len() {
        if ends_at(alloc, log, at, begun)? {
            return Ok(true);
        }
    }
    Ok(false)
}

/// Whether the record of this number, with this message, makes or sends a call that no record of the log ends.
pub fn is_unended(
    alloc: Global,
    log: &VatLog,
    number: usize,
    body: &Body,
    message: &Option<RpcMessage>,
) -> Result<bool, AllocError>
    ensures { IfOk result (λ unended. unended
        ≡ is_unended (edition_of log.now) body.now message.now (drop number log.now.records)) }
{
    match call_begun(body, message) {
        Some(begun) => Ok(!is_ended(alloc, log, number, begun)?),
        None => Ok(false),
    }
}
