//! Questions that are opened while they aren't free, and that are used where they can't be.

use crate::note_text::NoteText;
use crate::number_lives::NumberText;
use crate::openings::{QuestionOpening, opening_of};
use crate::records_before::Past;
use vat_view::TableKey;

/// In how many entries of a capability table a question is sought, at most.
const MOST: usize = 64;

/// How a record uses a question.
#[derive(Clone, Copy)]
enum Use {
    /// It returns it.
    Returns,
    /// It finishes it, or names a part of its results.
    Names,
    /// It takes its results.
    Takes,
}

/// Appends the note of the record that opened a question last, where there is one, and gives that opening.
pub fn put_opening(past: &Past<'_>, text: &mut NoteText, key: TableKey) -> Option<QuestionOpening> {
    let opening = opening_of(past, key)?;
    put_opened(text, key, opening.at);
    Some(opening)
}

/// Appends the note of the record that opened a question.
fn put_opened(text: &mut NoteText, key: TableKey, at: usize) {
    let question = NumberText(key);
    text.note_of("question @ was opened by record #", &question, &[at as u64]);
}

/// Notes by which record the Return or the Finish of a question passed, or that none has.
fn put_passage(text: &mut NoteText, word: &str, at: Option<usize>) {
    match at {
        Some(at) => text.note_of("its @ passed by record #", &word, &[at as u64]),
        None => text.note_of("no @ of it has passed since", &word, &[]),
    }
}

/// Notes what holds the question that is opened again.
pub fn put_reopened(past: &Past<'_>, text: &mut NoteText) {
    let opened = past.event.question_opened();
    if let Some(opening) = opened.and_then(|key| put_opening(past, text, key)) {
        put_passage(text, "Return", opening.returned);
        put_passage(text, "Finish", opening.finished);
    }
}

/// Whether a question with this opening has no room for such a use.
fn is_refused(use_of: Use, opening: QuestionOpening) -> bool {
    match use_of {
        Use::Returns => opening.returned.is_some(),
        Use::Names => opening.finished.is_some(),
        Use::Takes => opening.finished.is_some() || opening.taken.is_some() || !opening.yourself,
    }
}

/// Notes what passed of a question since it was opened so, before its results are taken.
fn put_taken(text: &mut NoteText, opening: QuestionOpening) {
    if let Some(at) = opening.taken {
        text.note("its results were taken by record #", &[at as u64]);
    } else if !opening.yourself {
        text.say("its results weren't asked for with sendResultsTo yourself");
    }
}

/// Notes what passed of a question since it was opened so, before it is used so.
fn put_since(text: &mut NoteText, use_of: Use, opening: QuestionOpening) {
    let (word, passed) = match use_of {
        Use::Returns => ("Return", opening.returned),
        _ => ("Finish", opening.finished),
    };
    if passed.is_some() {
        put_passage(text, word, passed);
    }
    if let Use::Takes = use_of {
        put_taken(text, opening);
    }
}

/// Notes what passed of a question before it is used so, where it has no room for that; and says whether it hasn't.
fn put_if_misused(past: &Past<'_>, text: &mut NoteText, key: TableKey, use_of: Use) -> bool {
    let Some(opening) = opening_of(past, key) else {
        if past.is_whole() {
            let question = NumberText(key);
            text.note_of("no record before it opens question @", &question, &[]);
        }
        return past.is_whole();
    };
    let is_misused = is_refused(use_of, opening);
    if is_misused {
        put_opened(text, key, opening.at);
        put_since(text, use_of, opening);
    }
    is_misused
}

/// Notes what passed of the first question that the record uses where it can't be: by itself, or by a capability.
pub fn put_misused(past: &Past<'_>, text: &mut NoteText) {
    let event = &past.event;
    let named = [
        (event.question_returned(), Use::Returns),
        (event.question_finished(), Use::Names),
        (event.question_targeted(), Use::Names),
        (event.question_taken(), Use::Takes),
    ];
    let described = event.descriptors().iter().take(MOST);
    let described = described.map(|one| (event.question_described(one), Use::Names));
    for (key, use_of) in named.into_iter().chain(described) {
        if let Some(key) = key
            && put_if_misused(past, text, key, use_of)
        {
            return;
        }
    }
}
