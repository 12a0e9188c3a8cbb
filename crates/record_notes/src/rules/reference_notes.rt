//! References and calls that are bound twice, or that no record bound.

use crate::rules::call_notes::brought_by;
use crate::rules::view_turns::binder_of;
use past_records::{NoteText, Past};
use rpc_view::RpcMessage;
use std::alloc::AllocError;
use vat_log::Body;
use vat_view::DecodedRecord;

/// Of how many references of a record the one that bound it is sought, at most.
const MOST: usize = 64;

/// Whether a record binds a reference, as its body says.
fn binds(body: &Body, sought: u64) -> bool {
    match body {
        Body::Host { reference, .. } | Body::Vow { reference } | Body::Field { reference, .. } => {
            *reference == sought
        }
        Body::Receive { references, .. } => references.as_slice().contains(&sought),
        _ => false,
    }
}

/// Whether a record makes or receives a call.
fn brings(body: &Body, sought: u64) -> bool {
    match body {
        Body::Make { call, .. } | Body::Receive { call, .. } => *call == sought,
        _ => false,
    }
}

/// Whether a record before binds a reference, or it stands for something.
fn is_bound(past: &Past<'_>, reference: u64) -> Result<bool, AllocError> {
    if binder_of(past, reference).is_some() {
        return Ok(true);
    }
    Ok(past.state.view_of_reference(reference)?.is_some())
}

/// Notes of a reference that the record names, where none before binds it.
fn put_if_unbound(past: &Past<'_>, text: &mut NoteText, reference: u64) {
    if let Some(false) = text.granted(is_bound(past, reference)) {
        text.note("no record before binds reference #", &[reference]);
        if let Some(at) = past.find_behind(|body| binds(body, reference)) {
            text.note("record # binds it, behind this one", &[at as u64]);
        }
    }
}

/// Notes of a call that the record names, where none before binds it.
fn put_if_unmade(past: &Past<'_>, text: &mut NoteText, call: u64) {
    if call == 0 || brought_by(past, call).is_some() || !past.is_whole() {
        return;
    }
    text.note("no record before makes or receives call #", &[call]);
    if let Some(at) = past.find_behind(|body| brings(body, call)) {
        text.note("record # does, behind this one", &[at as u64]);
    }
}

/// Notes the record that brought a call which is bound again.
fn put_if_made(past: &Past<'_>, text: &mut NoteText, call: u64) {
    if let Some(at) = brought_by(past, call) {
        text.note("call # was bound by record #", &[call, at as u64]);
    }
}

/// Notes of the call that a frame's record names or binds.
fn put_noted_call(past: &Past<'_>, text: &mut NoteText, call: u64, message: &RpcMessage) {
    match message {
        RpcMessage::Call { .. } | RpcMessage::Bootstrap { .. } => {
            if call == 0 {
                text.say("no call is noted beside it")
            } else if past.event.new_call().is_some() {
                put_if_made(past, text, call)
            } else {
                put_if_unmade(past, text, call)
            }
        }
        _ if call != 0 => text.note("call # is noted beside it, and it is no call", &[call]),
        _ => {}
    }
}

/// Notes of the call that a record names or binds.
fn put_call(past: &Past<'_>, text: &mut NoteText) {
    match &past.event {
        DecodedRecord::Make { call, .. } => put_if_made(past, text, *call),
        DecodedRecord::Field { call, .. }
        | DecodedRecord::Deliver { call, .. }
        | DecodedRecord::Answer { call, .. }
        | DecodedRecord::Fault { call } => put_if_unmade(past, text, *call),
        DecodedRecord::AnswerBy { call, by } => {
            put_if_unmade(past, text, *call);
            put_if_unmade(past, text, *by)
        }
        DecodedRecord::Wire { call, message, .. } => put_noted_call(past, text, *call, message),
        _ => {}
    }
}

/// Notes of the references that a record names.
fn put_named(past: &Past<'_>, text: &mut NoteText) {
    match &past.event {
        DecodedRecord::Fulfil { reference, to } => {
            put_if_unbound(past, text, *reference);
            put_if_unbound(past, text, *to)
        }
        DecodedRecord::Break { reference } | DecodedRecord::Make { reference, .. } => {
            put_if_unbound(past, text, *reference)
        }
        DecodedRecord::Answer { results, .. } => {
            for (reference, _) in results.as_slice().iter().take(MOST) {
                put_if_unbound(past, text, *reference);
            }
        }
        DecodedRecord::Wire { sent: true, .. } => {
            for reference in past.event.references().iter().take(MOST) {
                put_if_unbound(past, text, *reference);
            }
        }
        _ => {}
    }
}

/// Notes of the references and calls that a record binds again, or names unbound.
pub(crate) fn put_unbound(past: &Past<'_>, text: &mut NoteText) {
    for reference in past.event.new_references().iter().take(MOST) {
        if let Some(at) = binder_of(past, *reference) {
            let sentence = "reference # was bound by record #";
            text.note(sentence, &[*reference, at as u64]);
        }
    }
    put_named(past, text);
    put_call(past, text)
}
