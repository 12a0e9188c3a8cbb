//! Capability tables that don't say what the references beside them stand for.

use crate::rules::number_changes::put_changed;
use crate::rules::view_turns::{ViewText, put_reference};
use past_records::{NoteText, Past, put_life, put_opening};
use report_lines::Shown;
use rpc_view::{Descriptor, Edition};
use std::fmt::{self, Display, Formatter};
use vat_view::{BorrowedView, DecodedRecord, View};

/// The entry of a record's table at a place, as people are told of it. A Resolve has one capability and no table.
#[derive(Clone, Copy)]
struct EntryText<'a>(&'a DecodedRecord, usize);

impl Display for EntryText<'_> {
    fn fmt<W: fmt::Write>(&self, f: &mut Formatter<W>) -> fmt::Result {
        if is_resolve(self.0) {
            return write!(f, "the Resolve's capability");
        }
        write!(f, "entry {} of its table", self.1)
    }
}

/// An entry of the record's table, the reference beside it, and what it stands for.
#[derive(Clone, Copy)]
struct NotedEntry<'a> {
    place: usize,
    reference: u64,
    stands: Option<&'a View>,
}

/// Whether a record sends or receives a Resolve.
fn is_resolve(event: &DecodedRecord) -> bool {
    event.promise_resolved().is_some()
}

/// Notes that there are more or fewer references than capabilities, where it is so; and says whether it is.
pub(crate) fn put_unpaired(past: &Past<'_>, text: &mut NoteText) -> bool {
    if past.state.notes_each(&past.event) {
        return false;
    }
    let caps = past.event.descriptors().iter();
    let caps = caps.filter(|one| !matches!(one, Descriptor::NoCap)).count() as u64;
    let noted = past.event.references().len() as u64;
    let sentence = if is_resolve(&past.event) {
        "capabilities in the Resolve: #, references noted: #"
    } else {
        "capabilities in its table: #, references noted: #"
    };
    text.note(sentence, &[caps, noted]);
    if past.state.is_late(&past.event) {
        text.say("it is a late Return, beside which no reference is noted");
    }
    true
}

/// Notes the record since which an entry stands for what it does.
fn put_since(past: &Past<'_>, text: &mut NoteText, descriptor: &Descriptor) {
    if let Some(life) = past.life_of(descriptor).filter(|life| life.held > 0) {
        put_life(past, text, life);
    }
    if let Some(key) = past.event.question_described(descriptor) {
        put_opening(past, text, key);
    }
}

/// Notes what an entry stands for, and the record since which it does.
pub(crate) fn put_entry(past: &Past<'_>, text: &mut NoteText, place: usize, stands: Option<&View>) {
    let Some(descriptor) = past.event.descriptors().get(place) else {
        return;
    };
    if let Some(stands) = stands {
        text.tell_of("note: @, ", &EntryText(&past.event, place), &[]);
        text.tell_of("@, stands for ", &Shown(descriptor), &[]);
        text.tell_of("@\n", &ViewText::of(stands), &[]);
    }
    put_since(past, text, descriptor);
}

/// Whether the entry of a record at a place says senderHosted.
fn is_hosted(event: &DecodedRecord, place: usize) -> bool {
    matches!(
        event.descriptors().get(place),
        Some(Descriptor::SenderHosted(_))
    )
}

/// Where a view ends that is still open and stands beside an entry that says senderHosted, where it is so.
fn open_end<'a>(past: &'a Past<'_>, place: usize, view: &'a View) -> Option<BorrowedView<'a>> {
    if !is_hosted(&past.event, place) {
        return None;
    }
    let end = past.state.end(view)?;
    let is_settled = match end {
        BorrowedView::Object(_) => true,
        BorrowedView::Import(at, brought) => {
            past.get(at).is_some_and(|event| is_hosted(event, brought))
        }
        _ => false,
    };
    if is_settled { None } else { Some(end) }
}

/// Notes of an entry that says senderHosted of what is still open, and says whether it does.
fn put_open(past: &Past<'_>, text: &mut NoteText, entry: NotedEntry<'_>, view: &View) -> bool {
    let Some(end) = open_end(past, entry.place, view) else {
        return false;
    };
    put_reference(past, text, entry.reference);
    let sentence = if is_resolve(&past.event) {
        "@ is still open, so the Resolve's capability was expected to be a senderPromise"
    } else {
        "@ is still open, so entry # was expected to be a senderPromise"
    };
    text.note_of(sentence, &ViewText(end), &[entry.place as u64]);
    true
}

/// Whether a reference's view goes for what the entry beside it stands for: it leads there, or in version 3 is one with it.
fn goes_for(past: &Past<'_>, view: &View, stands: &View) -> bool {
    match past.edition() {
        Edition::First => past.state.leads(view, stands),
        Edition::Later => past.state.are_one(view, stands),
    }
}

/// Notes of what is known that it isn't one with what an entry of the table stands for, in a log of version 3.
pub(crate) fn put_apart(
    past: &Past<'_>,
    text: &mut NoteText,
    known: &View,
    place: usize,
    stands: &View,
) {
    if past.edition() == Edition::Later && !past.state.are_one(known, stands) {
        text.tell_of("note: @ and ", &ViewText::of(known), &[]);
        let sentence = "@ lead to nothing in common\n";
        text.tell_of(sentence, &EntryText(&past.event, place), &[]);
    }
}

/// Notes of an entry whose reference doesn't go for what it stands for; and says whether it doesn't, or memory was refused.
fn put_if_amiss(past: &Past<'_>, text: &mut NoteText, entry: NotedEntry<'_>) -> bool {
    let Some(view) = text.granted(past.state.view_of_reference(entry.reference)) else {
        return true;
    };
    if let (Some(view), Some(stands)) = (&view, entry.stands)
        && goes_for(past, view, stands)
    {
        return put_open(past, text, entry, view);
    }
    let shown = EntryText(&past.event, entry.place);
    text.note_of("@ has reference # beside it", &shown, &[entry.reference]);
    put_reference(past, text, entry.reference);
    if let (Some(view), Some(stands)) = (&view, entry.stands) {
        put_apart(past, text, view, entry.place, stands);
    }
    put_entry(past, text, entry.place, entry.stands);
    true
}

/// Notes of the first entry whose reference doesn't go for what it stands for, and says whether there is one, or memory was refused.
fn put_amiss(past: &Past<'_>, text: &mut NoteText) -> bool {
    let Some(stands) = text.granted(past.state.views_of_descriptors(&past.event)) else {
        return true;
    };
    let mut references = past.event.references().iter();
    for (place, descriptor) in past.event.descriptors().iter().enumerate() {
        if matches!(descriptor, Descriptor::NoCap) {
            continue;
        }
        let (Some(reference), Some(stands)) = (references.next(), stands.get(place)) else {
            return false;
        };
        let entry = NotedEntry {
            place,
            reference: *reference,
            stands: stands.as_ref(),
        };
        if put_if_amiss(past, text, entry) {
            return true;
        }
    }
    false
}

/// Notes that a Return which needs no Finish has references beside it, where it has; and says whether it has.
fn put_light(past: &Past<'_>, text: &mut NoteText) -> bool {
    let noted = past.event.references().len();
    let is_light = past.event.question_returned_lightly().is_some() && noted > 0;
    if is_light {
        let sentence =
            "it says noFinishNeeded, so no capability was expected in its table, and references noted are #";
        text.note(sentence, &[noted as u64]);
    }
    is_light
}

/// Notes what was expected of a table, and what stands there.
pub(crate) fn put_misdescribed(past: &Past<'_>, text: &mut NoteText) {
    let sent = matches!(past.event, DecodedRecord::Wire { sent: true, .. });
    if sent && (put_unpaired(past, text) || put_light(past, text) || put_amiss(past, text)) {
        return;
    }
    put_changed(past, text);
}
