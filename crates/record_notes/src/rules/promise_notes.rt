//! Promises that are settled or resolved where they can't be.

use crate::rules::desc_notes::put_entry;
use crate::rules::number_changes::resolved_by;
use crate::rules::view_turns::{ViewText, binder_of, promise_settled_by, put_bound, put_way};
use past_records::{NoteText, NumberLife, Past, put_life};
use vat_view::{DecodedRecord, View};

/// Notes what a record keeps or breaks that isn't an open promise of the vat.
pub(crate) fn put_unvowed(past: &Past<'_>, text: &mut NoteText) {
    let (DecodedRecord::Fulfil { reference, .. } | DecodedRecord::Break { reference }) = &past.event
    else {
        return;
    };
    let Some(view) = text.found(past.state.view_of_reference(*reference)) else {
        return;
    };
    if let Some(at) = binder_of(past, *reference) {
        put_bound(text, *reference, &view, Some(at));
    }
    let View::Promise(_) = view else {
        return;
    };
    if let Some((at, word)) = text.found(promise_settled_by(past, &view)) {
        text.note_of("it was @ by record #", &word, &[at as u64]);
    }
}

/// Notes of a number in life since this record that was resolved before, or didn't come as a promise; and says whether it was so.
fn put_if_settled(past: &Past<'_>, text: &mut NoteText, life: NumberLife, began: usize) -> bool {
    if past.state.began_promised(life.key) == Some(false) {
        let sentence = "@ was introduced by record #, as senderHosted";
        text.note_of(sentence, &life, &[began as u64]);
        return true;
    }
    if !past.state.is_resolved(life.key) {
        return false;
    }
    text.note_of("@ was introduced by record #", &life, &[began as u64]);
    if let Some(at) = resolved_by(past, life.key, began) {
        text.note("it was resolved by record #", &[at as u64]);
    }
    true
}

/// Notes what the capability of a Resolve stands for.
fn put_cap(past: &Past<'_>, text: &mut NoteText) {
    if let Some(stands) = text.granted(past.state.views_of_descriptors(&past.event))
        && let Some(view) = stands.first()
    {
        put_entry(past, text, 0, view.as_ref());
    }
}

/// Notes what a promise stands for and where that leads, of a Resolve that says something else.
fn put_unturned(past: &Past<'_>, text: &mut NoteText, life: NumberLife) {
    put_life(past, text, life);
    let Some(promise) = text.found(past.state.view_of_number(life.key)) else {
        return;
    };
    text.note_of("it stands for @", &ViewText::of(&promise), &[]);
    let stays = past.state.stays(&promise);
    put_way(past, text, promise);
    if stays {
        text.say("no record before says what that turned out to be");
    }
    put_cap(past, text);
}

/// Notes why a promise can't be resolved so.
pub(crate) fn put_misresolved(past: &Past<'_>, text: &mut NoteText) {
    let promise = past.event.promise_resolved();
    let Some(life) = promise.and_then(|key| past.lives.of(key)) else {
        return;
    };
    match life.began {
        _ if life.held == 0 => put_life(past, text, life),
        Some(began) if put_if_settled(past, text, life, began) => {}
        _ => put_unturned(past, text, life),
    }
}
