//! Calls that have gone where they are delivered or sent on, and that are answered where they can't be.

use crate::call_steps::{Does, step_of};
use cap_frame::Path;
use past_records::{NoteText, Past};
use report_lines::Shown;
use rpc_view::{Outcome, RpcMessage};
use vat_view::{DecodedRecord, TableKey};

/// The record that brought a call: its MAKE, or the Bootstrap or the received Call that it is.
pub(crate) fn brought_by(past: &Past<'_>, call: u64) -> Option<usize> {
    past.find(0, |event| event.new_call() == Some(call))
}

/// Notes the record that brought a call, and says whether the call is a Bootstrap.
pub(crate) fn put_origin(past: &Past<'_>, text: &mut NoteText, call: u64) -> bool {
    let Some(at) = brought_by(past, call) else {
        return false;
    };
    match past.get(at) {
        Some(DecodedRecord::Make { reference, .. }) => text.note(
            "call # was made by record #, through reference #",
            &[call, at as u64, *reference],
        ),
        Some(
            DecodedRecord::Wire {
                message: RpcMessage::Call { target, .. },
                ..
            },
        ) => text.note_of(
            "call # came by record #, for @",
            &Shown(target),
            &[call, at as u64],
        ),
        _ => {
            text.note("call # is the Bootstrap of record #", &[call, at as u64]);
            return true;
        }
    }
    false
}

/// Whether a record is a Return of this question and says that its call failed.
fn fails(event: &DecodedRecord, question: TableKey) -> bool {
    let is_failure = matches!(
        event,
        DecodedRecord::Wire {
            message: RpcMessage::Return {
                outcome: Outcome::Exception | Outcome::Canceled,
                ..
            },
            ..
        }
    );
    is_failure && event.question_returned() == Some(question)
}

/// The record that answered a received call with an exception or as canceled.
fn failed_by(past: &Past<'_>, call: u64) -> Option<usize> {
    let came = brought_by(past, call)?;
    let question = past
        .get(came)?
        .question_opened()
        .filter(|question| !question.ours)?;
    past.find(came, |event| fails(event, question))
}

/// What a record does with a call, so that it has gone from the vat.
fn leaves(event: &DecodedRecord, sought: u64) -> Option<&'static str> {
    match step_of(event)? {
        (call, _) if call != sought => None,
        (_, Does::Delivers) => Some("delivered"),
        (_, Does::Ends) => Some("ended without results"),
        (_, Does::SendsOn) => Some("sent on"),
        _ => None,
    }
}

/// The record by which a call left the vat, and how.
fn left_by(past: &Past<'_>, call: u64) -> Option<(usize, &'static str)> {
    if let Some(at) = past.find(0, |event| leaves(event, call).is_some()) {
        return Some((at, leaves(past.get(at)?, call)?));
    }
    Some((failed_by(past, call)?, "answered as failed"))
}

/// Notes by which record a call left the vat, where it did.
pub(crate) fn put_left(past: &Past<'_>, text: &mut NoteText, call: u64) {
    if let Some((at, word)) = left_by(past, call) {
        text.note_of("call # was @ by record #", &word, &[call, at as u64]);
    }
}

/// Notes where a call has gone that is delivered or sent on.
pub(crate) fn put_absent(past: &Past<'_>, text: &mut NoteText) {
    let (DecodedRecord::Deliver { call, .. } | DecodedRecord::Wire { call, .. }) = &past.event
    else {
        return;
    };
    if put_origin(past, text, *call) {
        return text.say("the call of a Bootstrap is never at a vat");
    }
    put_left(past, text, *call);
}

/// The call that a record answers here, or ends without results.
fn call_settled(event: &DecodedRecord) -> Option<u64> {
    match step_of(event)? {
        (call, Does::Answers | Does::Ends) => Some(call),
        _ => None,
    }
}

/// The record that answered a call here, or ended it without results.
pub(crate) fn settled_by(past: &Past<'_>, call: u64) -> Option<usize> {
    past.find(0, |event| call_settled(event) == Some(call))
}

/// The first path that stands twice among results.
fn repeated_path(results: &[(u64, Path)]) -> Option<&Path> {
    for (index, (_, path)) in results.iter().enumerate() {
        let mut before = results.iter().take(index);
        if before.any(|other| other.1.as_slice() == path.as_slice()) {
            return Some(path);
        }
    }
    None
}

/// Notes the path that stands twice in an answer.
fn put_repeated(text: &mut NoteText, event: &DecodedRecord) {
    if let DecodedRecord::Answer { results, .. } = event
        && let Some(path) = repeated_path(results.as_slice())
    {
        text.note_of("path @ stands there twice", &Shown(path), &[]);
    }
}

/// Notes why a call can't be answered, or ended without results.
pub(crate) fn put_answered(past: &Past<'_>, text: &mut NoteText) {
    let Some(call) = call_settled(&past.event) else {
        return;
    };
    let is_boot = put_origin(past, text, call);
    if let Some(at) = settled_by(past, call) {
        return text.note("record # answered it, or ended it, before", &[at as u64]);
    }
    if past.state.is_served(call) {
        return put_repeated(text, &past.event);
    }
    if is_boot {
        return text.say("this vat asked for it, so the answer is the peer's");
    }
    put_left(past, text, call);
    text.say("no record before delivers it here");
}
