//! What references stand for, as people are told of it, and where that turns, with the records that turned it.

use crate::call_steps::{Does, step_of};
use past_records::{NoteText, Past};
use report_lines::Shown;
use std::alloc::AllocError;
use std::fmt::{self, Display, Formatter};
use vat_view::{BorrowedView, DecodedRecord, View};

/// How many turns are told of one after another, at most.
const MOST: usize = 12;

/// What a reference or a number stands for.
#[derive(Clone, Copy)]
pub(crate) struct ViewText<'a>(pub(crate) BorrowedView<'a>);

impl<'a> ViewText<'a> {
    /// This view.
    pub(crate) fn of(view: &'a View) -> ViewText<'a> {
        ViewText(BorrowedView::of(view))
    }
}

impl Display for ViewText<'_> {
    fn fmt<W: fmt::Write>(&self, f: &mut Formatter<W>) -> fmt::Result {
        match self.0 {
            BorrowedView::Object(object) => write!(f, "object {object}"),
            BorrowedView::Promise(reference) => write!(f, "the promise of reference {reference}"),
            BorrowedView::Field(call, path) => {
                let path = Shown(path);
                write!(f, "result [{path}] of call {call}")
            }
            BorrowedView::Import(at, place) => {
                write!(f, "what record {at} brought as capability {place}")
            }
        }
    }
}

/// A turn of a view: the record, and to what.
#[derive(Drop)]
struct Turn {
    at: usize,
    to: View,
}

/// A view, and its turns one after another: up to one to what was come to before, or as many as are told.
#[derive(Drop)]
pub(crate) struct Way {
    first: View,
    turns: Vec<Turn>,
    is_circle: bool,
}

/// Whether a reference stands for this view.
fn stands_for(past: &Past<'_>, reference: u64, sought: &View) -> Result<bool, AllocError> {
    match past.state.view_of_reference(reference)? {
        Some(view) => Ok(view.is_same(sought)),
        None => Ok(false),
    }
}

/// The record that kept or broke a promise, and how.
pub(crate) fn promise_settled_by(
    past: &Past<'_>,
    promise: &View,
) -> Result<Option<(usize, &'static str)>, AllocError> {
    for (at, event) in past.events.iter().enumerate() {
        let (reference, word) = match event {
            DecodedRecord::Fulfil { reference, .. } => (*reference, "fulfilled"),
            DecodedRecord::Break { reference } => (*reference, "broken"),
            _ => continue,
        };
        if stands_for(past, reference, promise)? {
            return Ok(Some((at, word)));
        }
    }
    Ok(None)
}

/// The Return that was received of the question by which this record asks a call of the peer, if it does and one was.
fn return_of(past: &Past<'_>, asked: usize, event: &DecodedRecord, call: u64) -> Option<usize> {
    let key = event.question_opened()?;
    if !key.ours || event.noted_call() != call {
        return None;
    }
    past.find(asked, |later| later.question_returned() == Some(key))
}

/// The record that answered a call here, or the Return that came of it.
fn answerer_of(past: &Past<'_>, sought: u64) -> Option<usize> {
    past.events.iter().enumerate().find_map(|(at, event)| match step_of(event) {
        Some((call, Does::Answers)) if call == sought => Some(at),
        _ => return_of(past, at, event, sought),
    })
}

/// The Resolve that came of what came in as a promise.
fn resolver_of(past: &Past<'_>, brought: usize, place: usize) -> Option<usize> {
    let event = past.get(brought)?;
    let number = event.number_introduced(event.descriptors().get(place)?)?;
    past.find(brought, |later| later.promise_resolved() == Some(number))
}

/// The record by which a view turned, if it is found.
fn turned_by(past: &Past<'_>, view: &View) -> Result<Option<usize>, AllocError> {
    Ok(match view {
        View::Object(_) => None,
        View::Promise(_) => promise_settled_by(past, view)?.map(|(at, _)| at),
        View::Field(call, _) => answerer_of(past, *call),
        View::Import(at, place) => resolver_of(past, *at, *place),
    })
}

/// The record by which a view turned, and to what, if it did.
fn turn_of(past: &Past<'_>, view: &View) -> Result<Option<Turn>, AllocError> {
    let Some(to) = past.state.turned_to(view) else {
        return Ok(None);
    };
    let Some(at) = turned_by(past, view)? else {
        return Ok(None);
    };
    let to = to.to_view(past.alloc)?;
    Ok(Some(Turn { at, to }))
}

impl Way {
    /// The view at which they end.
    pub(crate) fn last(&self) -> &View {
        match self.turns.last() {
            Some(turn) => &turn.to,
            None => &self.first,
        }
    }

    /// Whether a view was come to before.
    fn has(&self, sought: &View) -> bool {
        self.first.is_same(sought) || self.turns.iter().any(|turn| turn.to.is_same(sought))
    }

    /// Adds the next turn, and says whether there may be another.
    fn go_on(&mut self, past: &Past<'_>) -> Result<bool, AllocError> {
        let Some(turn) = turn_of(past, self.last())? else {
            return Ok(false);
        };
        self.is_circle = self.has(&turn.to);
        self.turns.push(turn)?;
        Ok(!self.is_circle)
    }

    /// Adds turns up to the last, or as many as are told.
    fn go(&mut self, past: &Past<'_>) -> Result<(), AllocError> {
        for _ in 0..MOST {
            if !self.go_on(past)? {
                return Ok(());
            }
        }
        Ok(())
    }

    /// Appends a note of each turn.
    fn put(&self, text: &mut NoteText) {
        let mut from = &self.first;
        for turn in self.turns.iter() {
            text.tell_of("note: @ is ", &ViewText::of(from), &[]);
            let sentence = "@, by record #\n";
            text.tell_of(sentence, &ViewText::of(&turn.to), &[turn.at as u64]);
            from = &turn.to;
        }
    }

    /// Whether the last view turns no more and is nothing that a vat could tell.
    fn leads_nowhere(&self, past: &Past<'_>) -> bool {
        !self.is_circle && self.turns.len() < MOST && past.state.end(self.last()).is_none()
    }
}

/// Appends a note of each turn from a view on, and gives them; where that leads nowhere a note says so.
pub(crate) fn put_way(past: &Past<'_>, text: &mut NoteText, view: View) -> Option<Way> {
    let mut way = Way {
        first: view,
        turns: Vec::new(past.alloc),
        is_circle: false,
    };
    text.granted(way.go(past))?;
    way.put(text);
    if way.leads_nowhere(past) {
        text.say("that leads nowhere");
    }
    if way.is_circle {
        text.say("that goes in a circle");
    }
    Some(way)
}

/// Appends the note of the record that bound a reference, and what it stands for.
pub(crate) fn put_bound(text: &mut NoteText, reference: u64, view: &View, binder: Option<usize>) {
    let view = ViewText::of(view);
    match binder {
        Some(at) => {
            let sentence = "reference # is @, bound by record #";
            text.note_of(sentence, &view, &[reference, at as u64]);
        }
        None => text.note_of("reference # is @", &view, &[reference]),
    }
}

/// Appends the note of the record that bound a reference, and what it stands for; and one of each turn from there on.
pub(crate) fn put_reference(past: &Past<'_>, text: &mut NoteText, reference: u64) {
    if let Some(view) = text.found(past.state.view_of_reference(reference)) {
        put_bound(text, reference, &view, binder_of(past, reference));
        put_way(past, text, view);
    }
}

/// The record that bound a reference.
pub(crate) fn binder_of(past: &Past<'_>, reference: u64) -> Option<usize> {
    past.find(0, |event| event.new_references().contains(&reference))
}
