//! What is put into the log where a message is received: a function for each kind.

use crate::end_tables::{AwaitedEcho, CallPlace, Known, MadeCall, Question, call_number};
use crate::queue::Queue;
use crate::vat::Vat;
use crate::vat::end_notes::NO_CALL;
use crate::vat::end_numbers::{give_back, put_finish, put_return};
use crate::vat::views::EndView;
use std::alloc::AllocError;
use wire_plan::{Aim, Entry, Kind, Planned, PlannedCall, PlannedReturn};

impl Vat<'_> {
    /// Receives the next message of the peer's file.
    pub(crate) fn receive(&mut self) -> Result<(), AllocError> {
        let place = self.received;
        let Some(message) = self.files.peer_message(place) else {
            return Ok(());
        };
        self.receive_message(place, message)?;
        self.received = place.saturating_add(1);
        self.settle_woken()
    }

    /// Receives a message, the peer's at this place.
    fn receive_message(&mut self, place: usize, message: &Planned) -> Result<(), AllocError> {
        match message.kind {
            Kind::Bootstrap(question) => self.receive_bootstrap(place, question),
            Kind::Call(call) => self.receive_call(place, call, &message.table),
            Kind::Return(said) => self.receive_return(place, said, message),
            Kind::Resolve(number, _) => self.receive_resolve(number, message),
            Kind::Loopback(number, aim) => self.receive_loopback(number, aim),
            _ => self.receive_plain(message.kind),
        }
    }

    /// A message without a call, without references and without a target.
    fn receive_plain(&mut self, kind: Kind) -> Result<(), AllocError> {
        self.notes.receive_bare()?;
        match kind {
            Kind::Finish(question, release) => {
                let answers = &mut self.numbers.answers;
                let exports = &mut self.numbers.exports;
                put_finish(answers, exports, self.files.own(), question, release);
            }
            Kind::Release(number, count) => {
                give_back(&mut self.numbers.exports, number, u64::from(count));
            }
            Kind::Echo(number, _) => {
                let _ = self.outstanding.replace(u64::from(number), false);
            }
            _ => {}
        }
        Ok(())
    }

    /// A call that came with the peer's frame at this place answers the question of this number.
    fn open_answer(&mut self, number: u32, question: Question) -> Result<(), AllocError> {
        self.received_calls
            .put(question.opening as u64, question.call)?;
        self.numbers.answers.put(u64::from(number), question)
    }

    /// Bootstrap: the call is bound, and is served here.
    fn receive_bootstrap(&mut self, place: usize, question: u32) -> Result<(), AllocError> {
        let state = MadeCall::new(None, CallPlace::Served, Some(place));
        let call = self.turns.new_call(state)?;
        let references = Vec::new(self.alloc);
        self.notes.log.receive(call_number(call), references)?;
        self.open_answer(question, Question::opened(call, place, false))
    }

    /// A call waits: it is found by its goal and by its digest.
    fn wait(&mut self, call: usize, goal: Option<EndView>, digest: u64) -> Result<(), AllocError> {
        if !self.turns.is_here(call) {
            return Ok(());
        }
        if let Some(goal) = goal {
            self.waiting
                .entry(goal.key())?
                .or_insert(Queue::new(self.alloc))
                .wait(&self.turns, call)?;
        }
        self.digests
            .entry(digest)?
            .or_insert(Queue::new(self.alloc))
            .wait(&self.turns, call)
    }

    /// Call: DELIVER at once if it leads to an object, else it waits.
    fn receive_call(
        &mut self,
        place: usize,
        said: PlannedCall,
        table: &[Entry],
    ) -> Result<(), AllocError> {
        let goal = self.numbers.view_of_peers(said.aim);
        let state = MadeCall::new(goal, CallPlace::Here, Some(place));
        let call = self.turns.new_call(state)?;
        let references = self.take_in_all(table)?;
        self.notes.log.receive(call_number(call), references)?;
        self.open_answer(said.question, Question::opened(call, place, said.yourself))?;
        self.settle(call)?;
        self.wait(call, goal, said.digest)
    }

    /// Return.
    fn receive_return(
        &mut self,
        place: usize,
        said: PlannedReturn,
        message: &Planned,
    ) -> Result<(), AllocError> {
        let question = self.numbers.question(said.answer);
        let is_late = question.is_some_and(|question| question.is_released);
        let references = if is_late {
            Vec::new(self.alloc)
        } else {
            self.take_in_all(&message.table)?
        };
        self.notes.log.receive(NO_CALL, references)?;
        let questions = &mut self.numbers.questions;
        let exports = &mut self.numbers.exports;
        put_return(questions, exports, self.files.own(), place, said);
        match question {
            Some(question) if is_late => self.turns.know(question.call, Known::Nothing),
            Some(question) => self
                .turns
                .learn(&self.numbers, question.call, said.results, message),
            None => Ok(()),
        }
    }

    /// Resolve: the import turns, if it is held and waits for one.
    fn receive_resolve(&mut self, number: u32, message: &Planned) -> Result<(), AllocError> {
        let held = self.numbers.import(number);
        let references = self.take_in_all(&message.table)?;
        self.notes.log.receive(NO_CALL, references)?;
        let resolved = held.and_then(|held| self.numbers.resolve_import(number, held));
        let Some(promise) = resolved else {
            return Ok(());
        };
        let entry = message.entry(0);
        let view = entry.and_then(|entry| self.numbers.view_of_received(entry));
        self.turns.resolve(promise, view)
    }

    /// A senderLoopback: what its target leads to is told, as far as that may be.
    fn receive_loopback(&mut self, number: u32, aim: Aim) -> Result<(), AllocError> {
        let view = self.numbers.view_of_peers(aim);
        if let Some(view) = view {
            let _ = self.end_of(view)?;
        }
        self.notes.receive_bare()?;
        let embargo = AwaitedEcho {
            view,
            calls: self.turns.calls.len(),
        };
        self.pending.put(u64::from(number), Some(embargo))?;
        Ok(())
    }
}
