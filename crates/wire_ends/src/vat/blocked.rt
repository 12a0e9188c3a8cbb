//! When a message may be sent: what it lacks, a function for each row.

use crate::end_tables::{CallPlace, Known, Question};
use crate::vat::Vat;
use crate::vat::views::{EndView, NextView};
use std::alloc::AllocError;
use wire_cut::Lack;
use wire_plan::{Aim, Entry, Kind, Planned, PlannedCall, PlannedReturn, ReturnKind};

impl Vat<'_> {
    /// What the next message of the own file lacks, if anything.
    pub(crate) fn blocked(&mut self) -> Result<Option<Lack>, AllocError> {
        let place = self.sent;
        let Some(message) = self.files.message(place) else {
            return Ok(None);
        };
        if self.is_aborted {
            return Ok(Some(Lack::NotAborted));
        }
        match message.kind {
            Kind::Return(said) => self.lack_of_return(said, message),
            Kind::Resolve(number, group) => self.lack_of_resolve(number, group, message),
            Kind::Echo(number, aim) => self.lack_of_echo(number, aim),
            _ => Ok(self.lack_of_other(place, message)),
        }
    }

    /// What a message lacks that is no Return, no Resolve and no echo.
    fn lack_of_other(&mut self, place: usize, message: &Planned) -> Option<Lack> {
        match message.kind {
            Kind::Bootstrap(question) => self.numbers.lack_of_opening(question),
            Kind::Call(call) => {
                let lack = self.numbers.lack_of_call(call, &message.table);
                lack.or_else(|| self.lack_of_handing(place, call))
            }
            Kind::Finish(question, release) => {
                self.numbers.lack_of_finish(self.files, question, release)
            }
            Kind::Release(number, count) => {
                self.numbers.lack_of_release(number, u64::from(count))
            }
            Kind::Loopback(number, aim) => self.lack_of_loopback(number, aim),
            _ => None,
        }
    }

    /// The peer's Call that an own one hands on or passes on, as its file says.
    fn call_to_hand(&self, place: usize, call: PlannedCall) -> Option<usize> {
        let own = self.files.own();
        if own.ties.take_of(place).is_some() {
            return self.files.handed_on(place);
        }
        if self.passed_on(place, call).is_some() {
            return None;
        }
        own.call_to_pass(call.digest, call.aim, self.received)
    }

    /// A Call that hands on or passes on, softly: the call that it hands on was received.
    fn lack_of_handing(&self, place: usize, call: PlannedCall) -> Option<Lack> {
        if self.hurried == Some(place) {
            return None;
        }
        let opening = self.call_to_hand(place, call)?;
        let question = self.files.peer_message(opening)?.opens()?;
        (opening >= self.received).then_some(Lack::HandedOnCall(question))
    }

    /// A senderLoopback: the number is free, and the target leads to what isn't over this connection.
    fn lack_of_loopback(&self, number: u32, aim: Aim) -> Option<Lack> {
        if self.outstanding.get(u64::from(number)).copied() == Some(true) {
            return Some(Lack::LoopbackFree(number));
        }
        self.ahead().lack_of_loop(number, aim)
    }

    /// An echo: the number is pending, its target led there, and no call for the same target is here that will have results.
    fn lack_of_echo(&mut self, number: u32, aim: Aim) -> Result<Option<Lack>, AllocError> {
        let Some(Some(embargo)) = self.pending.get(u64::from(number)).copied() else {
            return Ok(Some(Lack::LoopbackPending(number)));
        };
        if let Some(lack) = self.numbers.lack_of_aim(aim) {
            return Ok(Some(lack));
        }
        let leads = self.ahead().echoed(embargo.view, aim);
        if let Some((view, target)) = leads {
            self.tell_along(view, target)?;
        }
        self.settle_woken()?;
        if leads.is_none() {
            return Ok(Some(Lack::LoopbackLeads(number)));
        }
        let held_up = self.held_up(&embargo)?;
        let ahead = self.ahead();
        let is_held_up = held_up.iter().any(|call| ahead.has_results(*call));
        Ok(is_held_up.then_some(Lack::CallsGone(number)))
    }

    /// Return.
    fn lack_of_return(
        &mut self,
        said: PlannedReturn,
        message: &Planned,
    ) -> Result<Option<Lack>, AllocError> {
        let number = said.answer;
        let Some(question) = self.numbers.unanswered(number) else {
            return Ok(Some(Lack::QuestionReceived(number)));
        };
        let lack = self
            .numbers
            .lack_of_answer(self.files, question, said.release, &message.table);
        if lack.is_some() {
            return Ok(lack);
        }
        match said.results {
            ReturnKind::There if !question.is_released => {
                self.lack_of_results(number, question, message)
            }
            ReturnKind::TakenFrom(taken) => {
                Ok(self.ahead().lack_of_taking(number, question, taken))
            }
            ReturnKind::Elsewhere if !question.is_released && !question.is_tail => {
                Ok(Some(Lack::AskedYourself(number)))
            }
            ReturnKind::Canceled if !question.is_finished => Ok(Some(Lack::FinishReceived(number))),
            _ => Ok(None),
        }
    }

    /// A Return with results: its call was delivered, or passed on and answered, and what was told of the results agrees.
    fn lack_of_results(
        &mut self,
        number: u32,
        question: Question,
        message: &Planned,
    ) -> Result<Option<Lack>, AllocError> {
        if question.is_tail {
            return Ok(Some(Lack::AskedForResults(number)));
        }
        let Some(state) = self.turns.call(question.call) else {
            return Ok(Some(Lack::CallAnswered(number)));
        };
        match state.known {
            Known::NotYet if state.place == CallPlace::Served => return Ok(None),
            Known::NotYet | Known::Nothing => return Ok(Some(Lack::CallAnswered(number))),
            Known::Listed | Known::By(_) => {}
        }
        for field in &message.fields {
            let view = EndView::Field(question.call, field.path);
            match message.entry(field.index) {
                None | Some(Entry::NoCap) => {}
                Some(entry) if self.turned_to(view, entry)? => {}
                Some(_) => return Ok(Some(Lack::ResultsAgree(number))),
            }
        }
        self.settle_woken()?;
        Ok(None)
    }

    /// Whether a view leads to an own object that gets the number of an entry, which is then told.
    fn gets_number(&mut self, view: EndView, entry: Entry) -> Result<bool, AllocError> {
        let Entry::Hosted(number) = entry else {
            return Ok(false);
        };
        let Some(EndView::Object(object)) = self.ahead().end_ahead(view) else {
            return Ok(false);
        };
        if !self.numbers.give_number(object, number)? {
            return Ok(false);
        }
        self.tell_along(view, EndView::Object(object))?;
        Ok(true)
    }

    /// Whether a view leads to what an entry stands for, which is then told. An entry that stands for nothing yet may stand for
    /// an own object to which the view leads, or for the view itself, which is passed on while it is open.
    fn stands_for(&mut self, view: EndView, entry: Entry) -> Result<bool, AllocError> {
        if let Some(target) = self.numbers.view_of_entry(entry) {
            if self.ahead().leads_ahead(view, target) {
                self.tell_along(view, target)?;
                return Ok(true);
            }
        }
        match entry {
            Entry::Promised(number, group) if self.numbers.held_export(number).is_none() => {
                self.pass_group(view, group)
            }
            _ => self.gets_number(view, entry),
        }
    }

    /// Whether a view turned, and leads to what an entry stands for, which is then told.
    fn turned_to(&mut self, view: EndView, entry: Entry) -> Result<bool, AllocError> {
        match self.turns.turn_of(view) {
            NextView::To(next) => self.stands_for(next, entry),
            NextView::Stays | NextView::Stops => Ok(false),
        }
    }

    /// Whether what was passed on while it was open became what an entry stands for, which is then told.
    fn became(&mut self, passed: EndView, entry: Entry) -> Result<bool, AllocError> {
        if self.turns.turn_of(passed) == NextView::Stays && !self.tell(passed, true)? {
            return Ok(false);
        }
        self.turned_to(passed, entry)
    }

    /// Resolve: its number is a promise without one; and what that passed on became what it names.
    fn lack_of_resolve(
        &mut self,
        number: u32,
        group: Option<usize>,
        message: &Planned,
    ) -> Result<Option<Lack>, AllocError> {
        let lack = self.numbers.lack_of_resolve(number, message);
        if lack.is_some() {
            return Ok(lack);
        }
        let Some(passed) = self.numbers.passed_view(group) else {
            return Ok(None);
        };
        match message.entry(0) {
            None | Some(Entry::NoCap) => Ok(None),
            Some(entry) if self.became(passed, entry)? => {
                self.settle_woken()?;
                Ok(None)
            }
            Some(_) => Ok(Some(Lack::PromiseLeads(number))),
        }
    }
}
