//! What is wrong with an embargo: an echo that is asked for, or sent, where it may not be.

use crate::rules::view_turns::{ViewText, put_way};
use past_records::{NoteText, Past};
use rpc_view::{Edition, RpcMessage};
use std::alloc::AllocError;
use vat_view::{DecodedRecord, TableKey};

/// Notes that a record sent or received a Disembargo.
fn put_deed(text: &mut NoteText, sentence: &str, at: Option<usize>, sent: bool) {
    if let Some(at) = at {
        let deed = if sent { "sent" } else { "received" };
        text.note_of(sentence, &deed, &[at as u64]);
    }
}

/// Notes what the target of the record stands for, and where that leads.
fn put_target(past: &Past<'_>, text: &mut NoteText) {
    match text.granted(past.state.view_of_target(&past.event)) {
        Some(Some(view)) => {
            text.note_of("its target stands for @", &ViewText::of(&view), &[]);
            put_way(past, text, view);
        }
        Some(None) => text.say("its target stands for nothing"),
        None => {}
    }
}

/// The last record before this one that asks for the echo of this number.
fn asked_by(past: &Past<'_>, loopback: TableKey) -> Option<usize> {
    past.find_last(|event| event.sender_loopback() == Some(loopback))
}

/// Notes why an echo isn't asked for so: the number waits, or calls don't come back from the target.
fn put_asking(past: &Past<'_>, text: &mut NoteText, asked: TableKey) {
    if past.state.awaits_echo(asked) {
        let sentence = "record # @ a senderLoopback of this number, which waits for its echo";
        return put_deed(text, sentence, asked_by(past, asked), asked.ours);
    }
    put_target(past, text);
    let sentence = match (asked.ours, past.edition()) {
        (true, Edition::First) => {
            "calls come back over connection # only from what isn't reached over it"
        }
        (true, Edition::Later) => {
            "calls come back over connection # only from what isn't reached over it, or came back over it"
        }
        (false, _) => "calls go back over connection # only to what is reached over it",
    };
    text.note(sentence, &[u64::from(asked.connection)]);
}

/// Notes that no senderLoopback of the number waits, and the last echo of it, if there was one.
fn put_unasked(past: &Past<'_>, text: &mut NoteText, echoed: TableKey) {
    text.say("no senderLoopback of this number waits for its echo");
    let before = past.find_last(|event| event.receiver_loopback() == Some(echoed));
    put_deed(text, "record # @ an echo of it", before, !echoed.ours);
}

/// The call that a record receives on a connection, if it does.
fn call_received(event: &DecodedRecord, sought: u32) -> Option<u64> {
    match event {
        DecodedRecord::Wire {
            sent: false,
            connection,
            call,
            message: RpcMessage::Call { .. },
            ..
        } if *connection == sought => Some(*call),
        _ => None,
    }
}

/// Whether a call is at the vat whose target stood for what the waiting senderLoopback's target stood for.
fn holds(past: &Past<'_>, call: u64, waiting: TableKey) -> Result<bool, AllocError> {
    if !past.state.is_at_vat(call) {
        return Ok(false);
    }
    match (
        past.state.goal_of(call)?,
        past.state.embargoed_view(waiting),
    ) {
        (Some(goal), Some(view)) => Ok(goal.is_same(view)),
        _ => Ok(false),
    }
}

/// The first call that holds up an echo, whose senderLoopback this record received, and the record that received the call.
fn held_by(
    past: &Past<'_>,
    echoed: TableKey,
    asked: usize,
) -> Result<Option<(usize, u64)>, AllocError> {
    for (at, event) in past.events.iter().enumerate().take(asked) {
        if let Some(call) = call_received(event, echoed.connection)
            && holds(past, call, echoed)?
        {
            return Ok(Some((at, call)));
        }
    }
    Ok(None)
}

/// Notes that an echo goes elsewhere than its senderLoopback was meant for.
fn put_elsewhere(past: &Past<'_>, text: &mut NoteText, echoed: TableKey, asked: usize) {
    if let Some(view) = past.state.embargoed_view(echoed) {
        let sentence = "record # received its senderLoopback, whose target stood for @";
        text.note_of(sentence, &ViewText::of(view), &[asked as u64]);
        if let Some(end) = past.state.end(view) {
            text.note_of("that leads to @", &ViewText(end), &[]);
        }
    }
    put_target(past, text);
}

/// Notes why an echo isn't sent so, whose senderLoopback waits: a call holds it up, or it goes elsewhere.
fn put_echoing(past: &Past<'_>, text: &mut NoteText, echoed: TableKey) {
    let Some(asked) = asked_by(past, echoed) else {
        return;
    };
    match text.granted(held_by(past, echoed, asked)) {
        Some(Some((at, call))) => text.note(
            "call #, which record # received for the same target, is still here: the echo comes behind it",
            &[call, at as u64],
        ),
        Some(None) => put_elsewhere(past, text, echoed, asked),
        None => {}
    }
}

/// Notes what is wrong with the Disembargo that the record is.
pub(crate) fn put_embargo(past: &Past<'_>, text: &mut NoteText) {
    if let Some(asked) = past.event.sender_loopback() {
        return put_asking(past, text, asked);
    }
    let Some(echoed) = past.event.receiver_loopback() else {
        return;
    };
    if echoed.ours || !past.state.awaits_echo(echoed) {
        put_unasked(past, text, echoed)
    } else {
        put_echoing(past, text, echoed)
    }
}
