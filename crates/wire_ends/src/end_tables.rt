//! What is kept of questions, numbers, promises and calls at one end.

use crate::vat::views::{EndView, NextView};
use wire_plan::Entry;

/// A question: one of this end's, or one that this end answers.
#[derive(Clone, Copy)]
pub(crate) struct Question {
    /// Its call.
    pub call: usize,
    /// The frame that opened it: of this end's file, or of the peer's.
    pub opening: usize,
    /// Its results stay with the answerer.
    pub is_tail: bool,
    /// The frame of its Return, if that has passed.
    pub answer: Option<usize>,
    /// Its Return was late.
    pub is_late: bool,
    /// Its Return says that no Finish is needed.
    pub is_light: bool,
    /// Its Finish has passed.
    pub is_finished: bool,
    /// Its Finish has passed, and gives the results' capabilities back.
    pub is_released: bool,
    /// A Return took its results.
    pub is_taken: bool,
}

impl Question {
    /// A question that is opened.
    pub(crate) fn opened(call: usize, opening: usize, is_tail: bool) -> Question {
        Question {
            call,
            opening,
            is_tail,
            answer: None,
            is_late: false,
            is_light: false,
            is_finished: false,
            is_released: false,
            is_taken: false,
        }
    }

    /// It has its Return, the frame of this place.
    pub(crate) fn put_return(&mut self, place: usize, is_light: bool) {
        self.answer = Some(place);
        self.is_late = self.is_released;
        self.is_light = is_light;
    }

    /// It has its Finish.
    pub(crate) fn put_finish(&mut self, release: bool) {
        self.is_finished = true;
        self.is_released = release;
    }

    /// The frame of the Return whose capabilities its Finish gives back.
    pub(crate) fn given_back(&self, release: bool) -> Option<usize> {
        self.answer.filter(|_| release && !self.is_late)
    }

    /// Whether its number may be opened again.
    pub(crate) fn is_free(&self) -> bool {
        self.answer.is_some() && (self.is_finished || self.is_light)
    }
}

/// An export or an import.
#[derive(Clone, Copy)]
pub(crate) struct Held {
    /// How often it was introduced more than given back.
    pub count: u64,
    /// Its life began as a promise.
    pub is_promise: bool,
    /// Its life has had a Resolve.
    pub is_resolved: bool,
    /// What it stands for since its life began.
    pub view: EndView,
}

/// A life of an import.
#[derive(Clone, Copy)]
pub(crate) struct Life {
    /// The reference with which it began.
    pub reference: u64,
    /// Where it turned.
    pub turn: NextView,
    /// The group of the peer's promises to which it belongs, if it began as a promise.
    pub group: Option<usize>,
}

/// What a promise of this end becomes.
#[derive(Clone, Copy)]
pub(crate) enum Becomes {
    /// What this entry of a sent table stands for.
    Entry(Entry),
    /// Nothing: it will be broken.
    Broken,
    /// Nothing tells it.
    Untold,
}

/// A promise of this end.
#[derive(Clone, Copy)]
pub(crate) struct Promise {
    /// Its reference.
    pub reference: u64,
    /// Where it turned.
    pub turn: NextView,
    /// What it becomes.
    pub becomes: Becomes,
}

/// Where a call is.
#[derive(Clone, Copy, PartialEq, Eq)]
pub(crate) enum CallPlace {
    /// It waits at this end.
    Here,
    /// It was given to an object of this end, or is a received Bootstrap's.
    Served,
    /// It has gone, or was never here.
    Gone,
}

/// What is known of a call's results.
#[derive(Clone, Copy, PartialEq, Eq)]
pub(crate) enum Known {
    /// Nothing yet.
    NotYet,
    /// What stands at each path.
    Listed,
    /// They are those of another call.
    By(usize),
    /// There are none.
    Nothing,
}

/// A call.
#[derive(Clone, Copy)]
pub(crate) struct MadeCall {
    /// What it is meant for, if that stands for anything.
    pub goal: Option<EndView>,
    /// Where it is.
    pub place: CallPlace,
    /// This end asked a question for it.
    pub is_asked: bool,
    /// Of a received call the frame of the peer's file that brought it.
    pub opening: Option<usize>,
    /// What is known of its results.
    pub known: Known,
}

impl MadeCall {
    /// A call of which nothing is known: one that the peer's frame at a place brings, or one that this end asks for.
    pub(crate) fn new(goal: Option<EndView>, place: CallPlace, opening: Option<usize>) -> MadeCall {
        MadeCall {
            goal,
            place,
            is_asked: opening.is_none(),
            opening,
            known: Known::NotYet,
        }
    }
}

/// A senderLoopback that came in and waits for its echo.
#[derive(Clone, Copy)]
pub(crate) struct AwaitedEcho {
    /// What its target stood for.
    pub view: Option<EndView>,
    /// How many calls there were before it.
    pub calls: usize,
}

/// The number of a call in the log.
pub(crate) fn call_number(call: usize) -> u64 {
    (call as u64).saturating_add(1)
}
