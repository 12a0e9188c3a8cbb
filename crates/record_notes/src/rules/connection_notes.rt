//! What is sent behind an abort.

use past_records::{NoteText, Past, put_reason};
use rpc_view::{Edition, RpcMessage};
use vat_view::DecodedRecord;

/// Whether a record is an abort on this connection that was sent, or else received.
fn aborts(event: &DecodedRecord, over: u32, out: bool) -> bool {
    match event {
        DecodedRecord::Wire {
            sent,
            connection,
            message: RpcMessage::Abort,
            ..
        } => *connection == over && *sent == out,
        _ => false,
    }
}

/// Notes the last abort of this connection that was sent, or else received, and its reason; and says whether there is one.
fn put_abort(past: &Past<'_>, text: &mut NoteText, over: u32, out: bool) -> bool {
    let Some(at) = past.find_last(|event| aborts(event, over, out)) else {
        return false;
    };
    let word = if out { "sent" } else { "received" };
    text.tell_of("note: record # @ an abort there", &word, &[at as u64]);
    put_reason(text, past.log, at, ": ");
    text.words("\n");
    true
}

/// Notes the aborts behind which the record is not to be sent: in a log of version 3 that of this vat, else the peer's too.
pub(crate) fn put_closed(past: &Past<'_>, text: &mut NoteText) {
    let DecodedRecord::Wire { connection, .. } = &past.event else {
        return;
    };
    let was_sent = put_abort(past, text, *connection, true);
    if past.edition() == Edition::First {
        let was_received = put_abort(past, text, *connection, false);
        if was_received && !was_sent {
            text.say("in a log of version 3 an abort that was received forbids nothing");
        }
    }
}
