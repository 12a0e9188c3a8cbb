//! What an end holds back: a message that gives a promise back whose Resolve is still to come.
//!
//! Its import would be over when the Resolve comes, and so it would turn nowhere. Whoever waited for the Resolve, and gave the
//! promise back then, may follow it.

use crate::end_tables::Question;
use crate::vat::Vat;
use crate::vat::views::EndView;
use wire_plan::{Entry, Kind, ReturnKind};

impl Vat<'_> {
    /// Whether the next message is held back: it gives back what the peer's file still tells of, and nothing has let it go.
    pub(crate) fn holds_back(&self) -> bool {
        if !self.is_patient || self.let_go == Some(self.sent) {
            return false;
        }
        let Some(message) = self.files.message(self.sent) else {
            return false;
        };
        match message.kind {
            Kind::Release(number, count) => self.ends_early(number, u64::from(count)),
            Kind::Finish(number, true) => {
                let question = self.numbers.unfinished_question(number);
                question.is_some_and(|question| self.finishes_early(question))
            }
            Kind::Return(said) if said.release => {
                let question = self.numbers.unanswered(said.answer);
                question.is_some_and(|question| self.gives_back_early(question.opening))
            }
            _ => false,
        }
    }

    /// Whether an import would be over if it were given back so often, and the peer's file has a Resolve of it that was not
    /// received.
    fn ends_early(&self, number: u32, count: u64) -> bool {
        match self.numbers.import(number) {
            Some(held) if held.is_promise && !held.is_resolved && held.count <= count => {
                self.is_resolve_to_come(held.view)
            }
            _ => false,
        }
    }

    /// Whether the peer's file has a Resolve of an import's life.
    fn is_resolve_to_come(&self, view: EndView) -> bool {
        let EndView::Import(life) = view else {
            return false;
        };
        let group = self.turns.lives.get(life).and_then(|life| life.group);
        group.is_some_and(|group| self.files.peer().groups.resolve(group).is_some())
    }

    /// Whether giving back what the peer's message at this place introduced may end an import too early.
    fn gives_back_early(&self, place: usize) -> bool {
        let Some(message) = self.files.peer_message(place) else {
            return false;
        };
        let at_most = message.table.len() as u64;
        message.table.iter().any(|entry| match entry {
            Entry::Promised(number, _) => self.ends_early(*number, at_most),
            _ => false,
        })
    }

    /// Whether a Finish that gives results back goes out too early: its Return has them and is still to come, or one of them
    /// is a promise whose Resolve is.
    fn finishes_early(&self, question: Question) -> bool {
        if let Some(place) = question.answer {
            return self.gives_back_early(place);
        }
        let place = self.files.own().ties.pair_of(question.opening);
        let answer = place.and_then(|place| self.files.peer_message(place));
        answer.is_some_and(|answer| answer.results() == Some(ReturnKind::There))
    }
}
