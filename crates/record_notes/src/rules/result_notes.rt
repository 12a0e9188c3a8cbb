//! Returns that don't say what is known of their call.

use crate::rules::call_notes::{put_left, put_origin, settled_by};
use crate::rules::desc_notes::{put_apart, put_entry};
use crate::rules::view_turns::put_way;
use past_records::{NoteText, Past, QuestionOpening, opening_of};
use rpc_view::{Descriptor, Edition, Outcome, Payload, RpcMessage};
use std::alloc::AllocError;
use vat_log::Body;
use vat_view::{DecodedRecord, TableKey, View};

/// Whether a record answers a call here, as its body says.
fn answers(body: &Body, sought: u64) -> bool {
    match body {
        Body::Answer { call, .. } | Body::AnswerBy { call, .. } => *call == sought,
        _ => false,
    }
}

/// Notes of a Return of results that aren't known.
fn put_unknown(past: &Past<'_>, text: &mut NoteText, call: u64) {
    put_origin(past, text, call);
    put_left(past, text, call);
    match settled_by(past, call) {
        Some(at) => text.note("record # ended it without results", &[at as u64]),
        None => text.say("no record before tells its results"),
    }
    if let Some(later) = past.find_behind(|body| answers(body, call)) {
        text.note("record # tells them, behind the Return", &[later as u64]);
    }
}

/// Whether what was known went on to what a descriptor stands for: by turns, or in a log of version 3 it became a sender's own.
fn went_on(past: &Past<'_>, known: &View, descriptor: &Descriptor, stands: &View) -> bool {
    match (past.edition(), descriptor) {
        (Edition::Later, Descriptor::SenderHosted(_) | Descriptor::SenderPromise(_)) => {
            past.state.became(known, stands)
        }
        _ => past.state.leads_by_turns(known, stands),
    }
}

/// Whether what stands at a place of the table, a capability, is another than was known.
fn is_other(past: &Past<'_>, known: &View, place: usize, stands: &[Option<View>]) -> bool {
    match (past.event.descriptors().get(place), stands.get(place)) {
        (None | Some(Descriptor::NoCap), _) => false,
        (Some(descriptor), Some(Some(stands))) => !went_on(past, known, descriptor, stands),
        _ => true,
    }
}

/// The first of the results that is another than was known, with its place in the table.
fn first_other(
    past: &Past<'_>,
    payload: &Payload,
    stands: &[Option<View>],
    call: u64,
) -> Result<Option<(View, usize)>, AllocError> {
    for (path, place) in payload.fields.as_slice() {
        let place = *place as usize;
        let known = View::Field(call, path.copy()?);
        if is_other(past, &known, place, stands) {
            return Ok(Some((known, place)));
        }
    }
    Ok(None)
}

/// Notes of results that are others than were known: the record that tells of them, where the first leads, and what stands there.
fn put_other(past: &Past<'_>, text: &mut NoteText, payload: &Payload, call: u64) {
    let Some(stands) = text.granted(past.state.views_of_descriptors(&past.event)) else {
        return;
    };
    let other = first_other(past, payload, stands.as_slice(), call);
    let Some((known, place)) = text.found(other) else {
        return;
    };
    if let Some(at) = settled_by(past, call) {
        text.note("record # tells the results of call #", &[at as u64, call]);
    }
    let Some(shown) = text.granted(known.copy()) else {
        return;
    };
    put_way(past, text, shown);
    if let Some(view) = stands.get(place) {
        if let Some(view) = view {
            put_apart(past, text, &known, place, view);
        }
        put_entry(past, text, place, view.as_ref());
    }
}

/// Notes that the question was or wasn't asked so that its results stay with their answerer.
fn put_asked(text: &mut NoteText, opening: QuestionOpening) {
    let how = if opening.yourself { "with" } else { "without" };
    let sentence = "record # asked @ sendResultsTo yourself";
    text.note_of(sentence, &how, &[opening.at as u64]);
}

/// Notes of results that are sent.
fn put_results(past: &Past<'_>, text: &mut NoteText, payload: &Payload, opening: QuestionOpening) {
    if opening.yourself {
        put_asked(text, opening)
    } else if past.state.is_known(opening.call) {
        put_other(past, text, payload, opening.call)
    } else {
        put_unknown(past, text, opening.call)
    }
}

/// Notes by which call a call was answered, of a Return that takes the results of a question.
fn put_taken(past: &Past<'_>, text: &mut NoteText, call: u64, taken: TableKey) {
    match (past.state.answered_by(call), settled_by(past, call)) {
        (Some(by), Some(at)) => text.note(
            "call # was answered by call #, by record #",
            &[call, by, at as u64],
        ),
        _ => text.note("no record before answers call # by another", &[call]),
    }
    if let (Some(other), Some(asked)) = (past.state.call_of(taken), opening_of(past, taken)) {
        let sentence = "question # stands for call #, since record #";
        text.note(sentence, &[u64::from(taken.number), other, asked.at as u64]);
    }
}

/// Notes what was known of the call of a Return that is sent, whose question was opened so, and what stands there.
fn put_outcome(past: &Past<'_>, text: &mut NoteText, outcome: &Outcome, opening: QuestionOpening) {
    match outcome {
        Outcome::Results(payload) => put_results(past, text, payload, opening),
        Outcome::Elsewhere => put_asked(text, opening),
        Outcome::TakeFrom(_) => {
            if let Some(taken) = past.event.question_taken() {
                put_taken(past, text, opening.call, taken);
            }
        }
        Outcome::Canceled => text.note(
            "the question was opened by record #, and no Finish of it has passed since",
            &[opening.at as u64],
        ),
        Outcome::Exception => {}
    }
}

/// Notes what was known of the call of a Return, and what stands there.
pub(crate) fn put_misreturned(past: &Past<'_>, text: &mut NoteText) {
    let DecodedRecord::Wire {
        sent: true,
        message: RpcMessage::Return { outcome, .. },
        ..
    } = &past.event
    else {
        return;
    };
    let returned = past.event.question_returned();
    if let Some(opening) = returned.and_then(|key| opening_of(past, key)) {
        put_outcome(past, text, outcome, opening);
    }
}
