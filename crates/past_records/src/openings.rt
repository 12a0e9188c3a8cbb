//! What passed of a question since it was opened last.

use crate::records_before::Past;
use vat_view::{DecodedRecord, TableKey};

/// The last opening of a question, and the records that returned it, finished it and took its results since.
#[derive(Clone, Copy)]
pub struct QuestionOpening {
    /// The record that opened it.
    pub at: usize,
    /// The call.
    pub call: u64,
    /// Whether its results are to stay with their answerer.
    pub yourself: bool,
    /// Its Return.
    pub returned: Option<usize>,
    /// Its Finish.
    pub finished: Option<usize>,
    /// The Return that took its results.
    pub taken: Option<usize>,
}

impl QuestionOpening {
    /// Opened by this record.
    fn by(event: &DecodedRecord, at: usize) -> QuestionOpening {
        QuestionOpening {
            at,
            call: event.noted_call(),
            yourself: event.asks_elsewhere(),
            returned: None,
            finished: None,
            taken: None,
        }
    }

    /// Sees what a record does to this question.
    fn see(&mut self, key: TableKey, event: &DecodedRecord, at: usize) {
        if event.question_finished() == Some(key) {
            self.finished = Some(at);
        }
        if event.question_returned() == Some(key) {
            self.returned = Some(at);
        }
        if event.question_taken() == Some(key) {
            self.taken = Some(at);
        }
    }
}

/// The last opening of a question before the record that is told of, and what passed of it since.
pub fn opening_of(past: &Past<'_>, key: TableKey) -> Option<QuestionOpening> {
    let mut known: Option<QuestionOpening> = None;
    for (at, event) in past.events.iter().enumerate() {
        if event.question_opened() == Some(key) {
            known = Some(QuestionOpening::by(event, at));
        } else if let Some(opening) = &mut known {
            opening.see(key, event, at);
        }
    }
    known
}
