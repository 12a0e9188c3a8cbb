//! The members of a record.

use crate::answer_object::put_answer;
use crate::json_text::JsonText;
use cap_frame::Path;
use exception_reasons::record_reason;
use report_lines::NumberedRecord;
use std::alloc::AllocError;
use vat_log::Body;

/// A record's kind, and the call and the reference that it names, 0 where it names none.
fn named_by(body: &Body) -> (&'static str, u64, u64) {
    match body {
        Body::Host { reference, .. } => ("host", 0, *reference),
        Body::Vow { reference } => ("vow", 0, *reference),
        Body::Fulfil { reference, .. } => ("fulfil", 0, *reference),
        Body::Break { reference } => ("break", 0, *reference),
        Body::Make {
            call,
            reference,
            ..
        } => ("make", *call, *reference),
        Body::Field {
            reference,
            call,
            ..
        } => ("field", *call, *reference),
        Body::Deliver { call, .. } => ("deliver", *call, 0),
        Body::Answer { call, .. } => ("answer", *call, 0),
        Body::Fault { call } => ("fault", *call, 0),
        Body::Send { call, .. } => ("send", *call, 0),
        Body::Receive { call, .. } => ("receive", *call, 0),
        Body::AnswerBy { call, .. } => ("answerby", *call, 0),
    }
}

/// Writes a call or a reference, if there is one.
fn put_named(json: &mut JsonText<'_>, name: &str, number: u64) {
    if number != 0 {
        json.member(name, number);
    }
}

/// Writes the capabilities in the results of a call.
fn put_results(json: &mut JsonText<'_>, results: &[(u64, Path)]) {
    json.begin_member("results", "[");
    for (reference, path) in results {
        json.begin("{");
        json.numbers_member("path", path.as_slice());
        json.member("reference", *reference);
        json.end("}");
    }
    json.end("]");
}

/// Writes the reason of the exception in a record's frame, if there is one.
fn put_reason(json: &mut JsonText<'_>, body: &Body) {
    match record_reason(json.alloc(), body) {
        Ok(Some(reason)) => json.shown_member("reason", &reason),
        Ok(None) => (),
        Err(AllocError) => json.refuse(),
    }
}

/// Writes what stands in front of a record's kind.
fn put_before_kind(json: &mut JsonText<'_>, body: &Body, call: u64) {
    if let Body::AnswerBy { by, .. } = body {
        json.member("by", *by);
    }
    put_named(json, "call", call);
    match body {
        Body::Send { connection, .. } | Body::Receive { connection, .. } => {
            json.member("connection", *connection);
        }
        Body::Make {
            interface,
            method,
            ..
        } => json.interface_members(*interface, *method),
        _ => {}
    }
}

/// Writes the members of a record. It has a message where it has a frame: the object of what is answered to that.
pub(crate) fn put_record(json: &mut JsonText<'_>, shown: &NumberedRecord<'_>) {
    let body = shown.body;
    let (kind, call, reference) = named_by(body);
    put_before_kind(json, body, call);
    json.text_member("kind", kind);
    if let Some(message) = &shown.message {
        json.begin_member("message", "{");
        put_answer(json, message);
        json.end("}");
    }
    match body {
        Body::Make {
            interface,
            method,
            ..
        } => json.method_members(*interface, *method),
        Body::Host { object, .. } | Body::Deliver { object, .. } => json.member("object", *object),
        Body::Field { path, .. } => json.numbers_member("path", path.as_slice()),
        _ => {}
    }
    put_reason(json, body);
    json.member("record", shown.at);
    put_named(json, "reference", reference);
    match body {
        Body::Send { references, .. } | Body::Receive { references, .. } => {
            json.numbers_member("references", references.as_slice());
        }
        Body::Answer { results, .. } => put_results(json, results.as_slice()),
        Body::Fulfil { to, .. } => json.member("to", *to),
        _ => {}
    }
}
