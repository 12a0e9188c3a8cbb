//! Numbers that are used while they aren't held, and of which more is given back than is held.

use crate::note_text::NoteText;
use crate::number_lives::{Lives, NumberLife, number_named};
use crate::openings::opening_of;
use crate::read_again::decoded;
use crate::records_before::Past;
use rpc_view::{Descriptor, RpcMessage};
use std::alloc::AllocError;
use vat_view::{DecodedRecord, TableKey};

/// How a record gives a number back.
fn word_of(event: Option<&DecodedRecord>) -> &'static str {
    let Some(DecodedRecord::Wire { message, .. }) = event else {
        return "given back by";
    };
    match message {
        RpcMessage::Release { .. } => "released by",
        RpcMessage::Finish { .. } => "given back by the Finish of",
        RpcMessage::Return { .. } => "given back by the Return of",
        _ => "given back by",
    }
}

/// Notes by which record a number, or a part of it, was given back, and how.
fn put_back(past: &Past<'_>, text: &mut NoteText, sentence: &str, at: usize) {
    text.note_of(sentence, &word_of(past.get(at)), &[at as u64]);
}

/// Notes where the last life of a number began and ended.
pub fn put_life(past: &Past<'_>, text: &mut NoteText, life: NumberLife) {
    let Some(began) = life.began else {
        return text.note_of("no record before it introduces @", &life, &[]);
    };
    text.note_of("@ was introduced by record #", &life, &[began as u64]);
    if let Some(ended) = life.ended {
        put_back(past, text, "it was @ record #", ended);
    }
}

/// The life of a number that the record uses, where it isn't held.
fn gone(past: &Past<'_>, key: TableKey) -> Option<NumberLife> {
    past.lives.of(key).filter(|life| life.held == 0)
}

/// Notes the life of the first number that the record uses, by itself or by a capability, and that isn't held.
pub fn put_gone(past: &Past<'_>, text: &mut NoteText) {
    let described = past.event.descriptors().iter();
    let described = described.filter_map(|one| past.event.number_described(one));
    let mut used = number_named(&past.event).into_iter().chain(described);
    if let Some(life) = used.find_map(|key| gone(past, key)) {
        put_life(past, text, life);
    }
}

/// Notes how often a number is held of which more is given back, and what was done to it before.
fn put_counted(past: &Past<'_>, text: &mut NoteText, life: NumberLife, given: u64) {
    let counts = [given, life.held];
    text.note_of("it gives back # of @, and # of it is held", &life, &counts);
    put_life(past, text, life);
    if let Some(at) = life.lowered
        && life.ended != Some(at)
    {
        put_back(past, text, "a part of it was @ record #", at);
    }
}

/// How often a record's descriptors introduce a number of its connection.
fn introduced(event: &DecodedRecord, key: TableKey) -> u64 {
    let those = event.descriptors().iter();
    let those = those.filter(|one| event.number_introduced(one) == Some(key));
    those.count() as u64
}

/// Notes the first number of which the record gives back more than is held, of those that a record before introduced.
fn put_overdrawn(past: &Past<'_>, text: &mut NoteText, source: usize) {
    let Some(event) = past.get(source) else {
        return;
    };
    for life in past.lives.each() {
        let given = introduced(event, life.key);
        if life.held < given {
            text.note("it gives back what record # introduced", &[source as u64]);
            return put_counted(past, text, *life, given);
        }
    }
}

/// The record whose capabilities this one gives back: the Call of a Return, the Return of a Finish.
fn source_of(past: &Past<'_>) -> Option<usize> {
    if let Some(returned) = past.event.question_returned() {
        return Some(opening_of(past, returned)?.at);
    }
    opening_of(past, past.event.question_finished()?)?.returned
}

/// The record and the log before it once more, with the numbers watched that a record before introduced.
fn watching_introduced<'a>(past: &Past<'a>, source: usize) -> Result<Option<Past<'a>>, AllocError> {
    let mut lives = Lives::none(past.alloc);
    if let Some(event) = past.get(source) {
        lives.add_described(event)?;
    }
    match decoded(past.alloc, past.log, past.at)? {
        Some(event) => Past::watching(past.alloc, past.log, past.at, event, lives),
        None => Ok(None),
    }
}

/// Notes of the numbers that a Return or a Finish gives back: they stand in another record, so the log is walked once more.
fn put_given_back(past: &Past<'_>, text: &mut NoteText) {
    if let Some(source) = source_of(past)
        && let Some(again) = text.found(watching_introduced(past, source))
    {
        put_overdrawn(&again, text, source);
    }
}

/// Notes of what more is given back than is held.
pub fn put_miscounted(past: &Past<'_>, text: &mut NoteText) {
    let DecodedRecord::Wire {
        message: RpcMessage::Release { count, .. },
        ..
    } = &past.event
    else {
        return put_given_back(past, text);
    };
    if let Some(life) = number_named(&past.event).and_then(|key| past.lives.of(key)) {
        put_counted(past, text, life, u64::from(*count));
    }
}
