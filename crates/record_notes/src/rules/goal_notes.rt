//! Calls that go elsewhere than where they were meant to.

use crate::rules::call_notes::put_origin;
use crate::rules::view_turns::{ViewText, Way, put_way};
use past_records::{NoteText, Past, put_life, put_opening};
use rpc_view::{Edition, RpcMessage};
use std::alloc::AllocError;
use std::fmt::{self, Display, Formatter};
use vat_view::{BorrowedView, DecodedRecord};

/// Notes the record by which the vat hosts an object.
fn put_host(past: &Past<'_>, text: &mut NoteText, sought: u64) {
    let host = past.find(
        0,
        |event| matches!(event, DecodedRecord::Host { object, .. } if *object == sought),
    );
    if let Some(at) = host {
        text.note("object # is hosted since record #", &[sought, at as u64]);
    }
}

/// Notes what a call at the vat was meant for and where that leads, and gives the way there; none where it isn't at the vat.
fn put_goal(past: &Past<'_>, text: &mut NoteText, call: u64) -> Option<Way> {
    if !past.state.is_at_vat(call) {
        return None;
    }
    put_origin(past, text, call);
    let goal = text.granted(past.state.goal_of(call))??;
    text.note_of("call # is meant for @", &ViewText::of(&goal), &[call]);
    put_way(past, text, goal)
}

/// Notes of a call that is delivered to another object.
fn put_delivered(past: &Past<'_>, text: &mut NoteText, call: u64, object: u64) {
    let Some(way) = put_goal(past, text, call) else {
        return;
    };
    let at = past.at as u64;
    match past.state.end(way.last()) {
        Some(BorrowedView::Object(meant)) => {
            put_host(past, text, meant);
            put_host(past, text, object);
            let sentence = "record # delivers call # to object #, and object # was expected";
            text.note(sentence, &[at, call, object, meant]);
        }
        Some(end) => {
            let sentence = "before record # that leads to @, which is no object of this vat";
            text.note_of(sentence, &ViewText(end), &[at]);
        }
        None => {}
    }
}

/// The interface and the method of a call.
#[derive(Clone, Copy, PartialEq, Eq)]
struct Method {
    interface: u64,
    method: u16,
}

impl Display for Method {
    fn fmt<W: fmt::Write>(&self, f: &mut Formatter<W>) -> fmt::Result {
        let interface = self.interface;
        write!(f, "interface {interface:016x} method {}", self.method)
    }
}

/// The method that a call at the vat asked for.
fn method_asked(past: &Past<'_>, call: u64) -> Result<Option<Method>, AllocError> {
    if !past.state.is_at_vat(call) {
        return Ok(None);
    }
    Ok(
        past.state.request_of(call)?.map(|asked| Method {
            interface: asked.interface,
            method: asked.method,
        }),
    )
}

/// Notes of a call at the vat that is sent on by another method, and says whether it is, or memory was refused.
fn put_method(past: &Past<'_>, text: &mut NoteText, call: u64, sent: Method) -> bool {
    match text.granted(method_asked(past, call)) {
        Some(Some(asked)) if asked != sent => {
            put_origin(past, text, call);
            text.tell_of("note: it asked for @", &asked, &[]);
            text.tell_of(", and is sent for @\n", &sent, &[]);
            true
        }
        Some(_) => false,
        None => true,
    }
}

/// Notes what the target of the record's call stands for, and the record since which it does.
fn put_target(past: &Past<'_>, text: &mut NoteText) {
    let Some(target) = text.found(past.state.view_of_target(&past.event)) else {
        return;
    };
    text.note_of("its target stands for @", &ViewText::of(&target), &[]);
    let number = past.event.number_targeted();
    if let Some(life) = number.and_then(|key| past.lives.of(key)) {
        put_life(past, text, life);
    }
    if let Some(key) = past.event.question_targeted() {
        put_opening(past, text, key);
    }
}

/// Notes of a call that is sent to another target.
fn put_sent(past: &Past<'_>, text: &mut NoteText, call: u64) {
    let Some(way) = put_goal(past, text, call) else {
        return;
    };
    if let Some(end) = past.state.end(way.last()) {
        let sentence = match past.edition() {
            Edition::First => {
                "so it was expected to go to @, or to what stands before it on that way"
            }
            Edition::Later => "so it was expected to go to @, or to what leads there",
        };
        text.note_of(sentence, &ViewText(end), &[]);
    }
    put_target(past, text);
}

/// Notes where a call was meant to go that is delivered or sent elsewhere.
pub(crate) fn put_astray(past: &Past<'_>, text: &mut NoteText) {
    match &past.event {
        DecodedRecord::Deliver { call, object } => put_delivered(past, text, *call, *object),
        DecodedRecord::Wire {
            sent: true,
            call,
            message: RpcMessage::Call { head, .. },
            ..
        } => {
            let sent = Method {
                interface: head.interface,
                method: head.method,
            };
            if !put_method(past, text, *call, sent) {
                put_sent(past, text, *call);
            }
        }
        _ => {}
    }
}
