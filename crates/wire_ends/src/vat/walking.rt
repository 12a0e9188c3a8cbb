//! Where views lead.

use crate::end_tables::{Becomes, CallPlace, Known, Question};
use crate::vat::end_files::EndFiles;
use crate::vat::end_numbers::EndNumbers;
use crate::vat::end_turns::EndTurns;
use crate::vat::views::{EndView, MAX_TURNS, NextView, ViewWalk};
use wire_cut::Lack;
use wire_plan::{Aim, ReturnKind};

/// What an end knows of where views lead, and what its own file says of that.
#[derive(Clone, Copy)]
pub(crate) struct LookAhead<'a> {
    pub files: EndFiles<'a>,
    pub numbers: &'a EndNumbers,
    pub turns: &'a EndTurns,
}

impl LookAhead<'_> {
    /// What the own Return says that answers a received call.
    fn results_of(&self, call: usize) -> Option<ReturnKind> {
        let opening = self.turns.call(call)?.opening?;
        self.files.return_to(opening)?.results()
    }

    /// The other call whose results the own Return says a received call's are, where its question is open.
    pub(crate) fn taken_by(&self, call: usize) -> Option<usize> {
        let Some(ReturnKind::TakenFrom(number)) = self.results_of(call) else {
            return None;
        };
        let other = self.numbers.unfinished_question(number)?.call;
        (other != call).then_some(other)
    }

    /// Where a view that hasn't turned would turn if what the own file says were told now.
    fn told_ahead(&self, view: EndView) -> Option<EndView> {
        match view {
            EndView::Object(_) | EndView::Import(_) => None,
            EndView::Vow(place) => match self.turns.promises.get(place)?.becomes {
                Becomes::Entry(entry) => self.numbers.view_of_entry(entry),
                Becomes::Broken | Becomes::Untold => None,
            },
            EndView::Field(call, path) => {
                if self.turns.call(call)?.place != CallPlace::Served {
                    return None;
                }
                Some(EndView::Field(self.taken_by(call)?, path))
            }
        }
    }

    /// Where a view would turn if what the own file says were told now.
    fn turn_ahead(&self, view: EndView) -> NextView {
        match self.turns.turn_of(view) {
            NextView::Stays => match self.told_ahead(view) {
                Some(next) => NextView::To(next),
                None => NextView::Stays,
            },
            turn => turn,
        }
    }

    /// Whether a view would lead to another if what the own file says were told now.
    pub(crate) fn leads_ahead(&self, from: EndView, to: EndView) -> bool {
        let mut walk = ViewWalk::new(from);
        for _ in 0..MAX_TURNS {
            if walk.view == to {
                return true;
            }
            let turn = self.turn_ahead(walk.view);
            if !walk.goes_on(turn) {
                break;
            }
        }
        false
    }

    /// Where a view would lead in the end if what the own file says were told now.
    pub(crate) fn end_ahead(&self, from: EndView) -> Option<EndView> {
        let mut walk = ViewWalk::new(from);
        for _ in 0..MAX_TURNS {
            match self.turn_ahead(walk.view) {
                NextView::Stays => return Some(walk.view),
                turn if walk.goes_on(turn) => {}
                _ => break,
            }
        }
        None
    }

    /// Whether a call waits here and leads to where the own Call with this digest goes.
    pub(crate) fn may_pass(&self, call: usize, digest: u64, target: EndView) -> bool {
        let Some(state) = self.turns.call(call) else {
            return false;
        };
        let (Some(goal), Some(opening)) = (state.goal, state.opening) else {
            return false;
        };
        state.place == CallPlace::Here
            && self.files.digest_of(opening) == Some(digest)
            && self.leads_ahead(goal, target)
    }

    /// Whether no Return takes another question's results for this call.
    pub(crate) fn is_returned_itself(&self, call: usize) -> bool {
        !matches!(self.results_of(call), Some(ReturnKind::TakenFrom(_)))
    }

    /// Whether a call will have results: its Return has them, or they are elsewhere.
    pub(crate) fn has_results(&self, call: usize) -> bool {
        let results = self.results_of(call);
        results.is_some_and(|results| !results.are_none())
    }

    /// Where the target of an echo leads, if what was said of the senderLoopback's own target may lead there.
    pub(crate) fn echoed(&self, view: Option<EndView>, aim: Aim) -> Option<(EndView, EndView)> {
        let (view, target) = (view?, self.numbers.view_of_own(aim)?);
        self.leads_ahead(view, target).then_some((view, target))
    }

    /// A senderLoopback: its target leads to what isn't over this connection.
    pub(crate) fn lack_of_loop(&self, number: u32, aim: Aim) -> Option<Lack> {
        if let Some(lack) = self.numbers.lack_of_aim(aim) {
            return Some(lack);
        }
        match self.numbers.view_of_own(aim) {
            Some(view) if self.turns.leads_elsewhere(view) => None,
            _ => Some(Lack::LeadsElsewhere(number)),
        }
    }

    /// A Return that takes results: the question that it names may be taken from, and answers its call.
    pub(crate) fn lack_of_taking(
        &self,
        number: u32,
        question: Question,
        taken: u32,
    ) -> Option<Lack> {
        let other = self.numbers.unfinished_question(taken);
        let Some(other) = other.filter(|other| other.is_tail && !other.is_taken) else {
            return Some(Lack::QuestionTakeable(taken));
        };
        if question.is_released {
            return None;
        }
        let state = self.turns.call(question.call)?;
        let is_answered = match state.known {
            Known::By(by) => by == other.call,
            Known::NotYet => state.place == CallPlace::Served || other.call == question.call,
            Known::Listed | Known::Nothing => other.call == question.call,
        };
        (!is_answered).then_some(Lack::CallAnswered(number))
    }
}
