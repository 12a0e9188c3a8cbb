//! What is put into the log where a message is sent: a function for each kind.

use crate::end_tables::{AwaitedEcho, CallPlace, Known, MadeCall, Question, call_number};
use crate::vat::Vat;
use crate::vat::end_notes::NO_CALL;
use crate::vat::end_numbers::{begin, give_back, hold, put_finish, put_return};
use crate::vat::views::EndView;
use std::alloc::AllocError;
use wire_plan::{Entry, Kind, Planned, PlannedCall, PlannedReturn, ReturnKind};

impl Vat<'_> {
    /// Sends the next message of the own file.
    pub(crate) fn send(&mut self) -> Result<(), AllocError> {
        let place = self.sent;
        let Some(message) = self.files.message(place) else {
            return Ok(());
        };
        self.send_message(place, message)?;
        self.sent = place.saturating_add(1);
        self.settle_woken()
    }

    /// Sends a message, the own one at this place.
    fn send_message(&mut self, place: usize, message: &Planned) -> Result<(), AllocError> {
        match message.kind {
            Kind::Bootstrap(question) => self.send_bootstrap(place, question),
            Kind::Call(call) => self.send_call(place, call, &message.table),
            Kind::Return(said) => self.send_return(place, said, &message.table),
            Kind::Resolve(promise, group) => self.send_resolve(promise, group, message),
            Kind::Echo(number, _) => self.send_echo(number),
            _ => self.send_plain(message.kind),
        }
    }

    /// A message without a call and without references, before which nothing is told.
    fn send_plain(&mut self, kind: Kind) -> Result<(), AllocError> {
        self.notes.send_bare()?;
        match kind {
            Kind::Finish(question, release) => {
                let questions = &mut self.numbers.questions;
                let imports = &mut self.numbers.imports;
                put_finish(questions, imports, self.files.peer(), question, release);
            }
            Kind::Release(number, count) => {
                give_back(&mut self.numbers.imports, number, u64::from(count));
            }
            Kind::Loopback(number, _) => self.outstanding.put(u64::from(number), true)?,
            Kind::Abort => self.is_aborted = true,
            _ => {}
        }
        Ok(())
    }

    /// Bootstrap: the call is bound.
    fn send_bootstrap(&mut self, place: usize, question: u32) -> Result<(), AllocError> {
        let state = MadeCall::new(None, CallPlace::Gone, None);
        let call = self.turns.new_call(state)?;
        let references = Vec::new(self.alloc);
        self.notes.log.send(call_number(call), references)?;
        self.numbers
            .questions
            .put(u64::from(question), Question::opened(call, place, false))
    }

    /// MAKE, through the reference of the target.
    fn make(&mut self, said: PlannedCall) -> Result<usize, AllocError> {
        let (reference, _) = self.aimed(said.aim)?;
        let state = MadeCall::new(None, CallPlace::Gone, None);
        let call = self.turns.new_call(state)?;
        self.notes
            .log
            .make(call_number(call), reference, said.interface, said.method)?;
        Ok(call)
    }

    /// A received call goes out again: what leads it to the target is told now.
    fn pass_on(&mut self, call: usize, said: PlannedCall) -> Result<(), AllocError> {
        let target = self.numbers.view_of_own(said.aim);
        let goal = self.turns.call(call).and_then(|state| state.goal);
        if let (Some(goal), Some(target)) = (goal, target) {
            self.tell_along(goal, target)?;
        }
        self.turns.pass_call_on(call);
        if let Some(queue) = self.digests.get_mut(&said.digest) {
            queue.leave(&self.turns);
        }
        Ok(())
    }

    /// Call: it passes on a received one, or is made.
    fn send_call(
        &mut self,
        place: usize,
        said: PlannedCall,
        table: &[Entry],
    ) -> Result<(), AllocError> {
        let call = match self.passed_on(place, said) {
            Some(call) => {
                self.pass_on(call, said)?;
                call
            }
            None => self.make(said)?,
        };
        self.send_table(call_number(call), table)?;
        let question = Question::opened(call, place, said.yourself);
        self.numbers
            .questions
            .put(u64::from(said.question), question)
    }

    /// SEND with the call of this number and the references of a table, which introduces exports.
    fn send_table(&mut self, number: u64, table: &[Entry]) -> Result<(), AllocError> {
        let references = self.references_of(table)?;
        self.notes.log.send(number, references)?;
        self.introduce(table)
    }

    /// What has to be told before a Return that isn't late.
    fn tell_return(&mut self, call: usize, results: ReturnKind) -> Result<(), AllocError> {
        if let ReturnKind::There | ReturnKind::TakenFrom(_) = results {
            let _ = self.tell_results(call, true)?;
            self.settle_woken()?;
        }
        Ok(())
    }

    /// Return.
    fn send_return(
        &mut self,
        place: usize,
        said: PlannedReturn,
        table: &[Entry],
    ) -> Result<(), AllocError> {
        let question = self.numbers.answer(said.answer);
        match question {
            Some(question) if question.is_released => self.notes.send_bare()?,
            Some(question) => {
                self.tell_return(question.call, said.results)?;
                self.send_table(NO_CALL, table)?;
            }
            None => self.send_table(NO_CALL, table)?,
        }
        if let ReturnKind::TakenFrom(taken) = said.results {
            self.numbers.take_results(taken);
        }
        if let Some(question) = question {
            self.turns.give_up(question.call, said.results);
        }
        let answers = &mut self.numbers.answers;
        let imports = &mut self.numbers.imports;
        put_return(answers, imports, self.files.peer(), place, said);
        Ok(())
    }

    /// What the promise of a group becomes is told, at the latest before its Resolve.
    fn tell_group(&mut self, group: usize, is_broken: bool) -> Result<(), AllocError> {
        if self.numbers.passed_view(Some(group)).is_some() {
            return Ok(());
        }
        if let (_, EndView::Vow(place)) = self.promised(group)? {
            if is_broken {
                self.turns.break_promise(&mut self.notes.log, place)?;
            } else {
                let _ = self.tell_promise(place, true)?;
            }
        }
        Ok(())
    }

    /// Resolve: FULFIL or BREAK, at the latest here.
    fn send_resolve(
        &mut self,
        number: u32,
        group: Option<usize>,
        message: &Planned,
    ) -> Result<(), AllocError> {
        if let Some(group) = group {
            let is_broken = matches!(message.entry(0), None | Some(Entry::NoCap));
            self.tell_group(group, is_broken)?;
        }
        let references = self.references_of(&message.table)?;
        self.notes.log.send(NO_CALL, references)?;
        self.numbers.resolve_export(number);
        self.introduce(&message.table)
    }

    /// An own table goes out: it introduces exports.
    fn introduce(&mut self, entries: &[Entry]) -> Result<(), AllocError> {
        for entry in entries {
            let Some(number) = entry.introduced() else {
                continue;
            };
            if !hold(&mut self.numbers.exports, number) {
                let (_, view) = self.named(*entry)?;
                let is_promise = matches!(entry, Entry::Promised(_, _));
                begin(&mut self.numbers.exports, number, is_promise, view)?;
            }
        }
        Ok(())
    }

    /// The calls that wait with this goal and came before a senderLoopback.
    pub(crate) fn held_up(&self, embargo: &AwaitedEcho) -> Result<Vec<usize>, AllocError> {
        let mut calls = Vec::new(self.alloc);
        let Some(view) = embargo.view else {
            return Ok(calls);
        };
        if let Some(waiting) = self.waiting.get(&view.key()) {
            for call in waiting.iter() {
                if *call < embargo.calls && self.turns.is_here(*call) {
                    calls.push(*call)?;
                }
            }
        }
        Ok(calls)
    }

    /// FAULT of each of these calls.
    fn fail_all(&mut self, calls: &[usize]) -> Result<(), AllocError> {
        for call in calls {
            self.notes.log.fail(call_number(*call))?;
            self.turns.move_call(*call, CallPlace::Gone);
            self.turns.know(*call, Known::Nothing)?;
        }
        Ok(())
    }

    /// Echo: before it FAULT of each call that waits for the same target.
    fn send_echo(&mut self, number: u32) -> Result<(), AllocError> {
        let key = u64::from(number);
        if let Some(Some(embargo)) = self.pending.get(key).copied() {
            let calls = self.held_up(&embargo)?;
            self.fail_all(&calls)?;
        }
        self.notes.send_bare()?;
        let _ = self.pending.replace(key, None);
        Ok(())
    }
}
