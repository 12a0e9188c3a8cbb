//! What may be told early: what promises become, and results.

use crate::end_tables::{Becomes, Known, call_number};
use crate::vat::Vat;
use crate::vat::views::{EndView, MAX_TURNS, NextView, ViewWalk};
use cap_frame::Path;
use std::alloc::AllocError;
use wire_plan::{Entry, Planned, ReturnKind};

impl<'a> Vat<'a> {
    /// The own Return that answers a received call.
    fn return_to(&self, call: usize) -> Option<&'a Planned> {
        self.files.return_to(self.turns.call(call)?.opening?)
    }

    /// Tells what a promise becomes; what is the peer's is told only now that it goes out. Whether it was told.
    pub(crate) fn tell_promise(&mut self, place: usize, is_now: bool) -> Result<bool, AllocError> {
        let Some(promise) = self.turns.promises.get(place).copied() else {
            return Ok(false);
        };
        if promise.turn != NextView::Stays {
            return Ok(false);
        }
        let named = match promise.becomes {
            Becomes::Broken => return Ok(false),
            Becomes::Entry(entry) if self.numbers.is_too_early(entry, is_now) => return Ok(false),
            Becomes::Untold => self.notes.new_object()?,
            Becomes::Entry(entry) => self.named(entry)?,
        };
        self.turns.fulfil(&mut self.notes.log, place, named)?;
        Ok(true)
    }

    /// What an entry of a Return stands for in the ANSWER before it. What is the peer's has a promise of its own, unless it
    /// goes out now.
    fn result(&mut self, entry: Entry, is_now: bool) -> Result<(u64, EndView), AllocError> {
        if self.numbers.is_too_early(entry, is_now) {
            return self.new_promise(Becomes::Entry(entry));
        }
        self.named(entry)
    }

    /// Lists one result of a call.
    fn list_result(
        &mut self,
        call: usize,
        path: u32,
        named: (u64, EndView),
        listed: &mut Vec<(u64, Path)>,
    ) -> Result<(), AllocError> {
        let fields = self.files.plan.paths.path(self.alloc, path)?;
        self.turns.list_result((call, path), fields, named, listed)
    }

    /// Lists what a Return has.
    fn list_answer(
        &mut self,
        call: usize,
        answer: &Planned,
        is_now: bool,
        listed: &mut Vec<(u64, Path)>,
    ) -> Result<(), AllocError> {
        for field in &answer.fields {
            match answer.entry(field.index) {
                None | Some(Entry::NoCap) => {}
                Some(entry) => {
                    let named = self.result(entry, is_now)?;
                    self.list_result(call, field.path, named, listed)?;
                }
            }
        }
        Ok(())
    }

    /// ANSWER with what the Return has.
    fn tell_listed(
        &mut self,
        call: usize,
        answer: &Planned,
        is_now: bool,
    ) -> Result<(), AllocError> {
        let mut listed = Vec::new(self.alloc);
        self.list_answer(call, answer, is_now, &mut listed)?;
        self.answer_with(call, listed)
    }

    /// Lists a new object at each of these paths that isn't listed.
    fn list_objects(
        &mut self,
        call: usize,
        paths: &[u32],
        listed: &mut Vec<(u64, Path)>,
    ) -> Result<(), AllocError> {
        for path in paths {
            if !self.turns.is_listed(call, *path) {
                let named = self.notes.new_object()?;
                self.list_result(call, *path, named, listed)?;
            }
        }
        Ok(())
    }

    /// Lists a new object at each path that is named: by who asked, and of the question that takes the results.
    fn list_named(
        &mut self,
        call: usize,
        opening: usize,
        listed: &mut Vec<(u64, Path)>,
    ) -> Result<(), AllocError> {
        let own = self.files.own();
        let peer = self.files.peer();
        self.list_objects(call, peer.ties.named(opening), listed)?;
        match self.files.taking(opening) {
            Some(question) => self.list_objects(call, own.ties.named(question), listed),
            None => Ok(()),
        }
    }

    /// ANSWER with a new object at each path that is named.
    fn tell_objects(&mut self, call: usize) -> Result<(), AllocError> {
        let mut listed = Vec::new(self.alloc);
        let state = self.turns.call(call);
        if let Some(opening) = state.and_then(|state| state.opening) {
            self.list_named(call, opening, &mut listed)?;
        }
        self.answer_with(call, listed)
    }

    /// ANSWER with these results.
    fn answer_with(&mut self, call: usize, listed: Vec<(u64, Path)>) -> Result<(), AllocError> {
        self.notes.log.answer(call_number(call), listed)?;
        self.turns.know(call, Known::Listed)
    }

    /// ANSWERBY: the results of a call are those of another one, if there is one and they go out now. Whether it was told.
    fn tell_taken(&mut self, call: usize, is_now: bool) -> Result<bool, AllocError> {
        match self.ahead().taken_by(call) {
            Some(other) if is_now => {
                self.notes
                    .log
                    .answer_by(call_number(call), call_number(other))?;
                self.turns.know(call, Known::By(other))?;
                Ok(true)
            }
            _ => Ok(false),
        }
    }

    /// Tells the results of a call that is served here and isn't answered. Whether they were told.
    pub(crate) fn tell_results(&mut self, call: usize, is_now: bool) -> Result<bool, AllocError> {
        if !self.turns.is_to_be_told(call) {
            return Ok(false);
        }
        match self.return_to(call) {
            Some(answer) if answer.results() == Some(ReturnKind::There) => {
                self.tell_listed(call, answer, is_now)?;
            }
            Some(answer) if matches!(answer.results(), Some(ReturnKind::TakenFrom(_))) => {
                return self.tell_taken(call, is_now);
            }
            _ => self.tell_objects(call)?,
        }
        Ok(true)
    }

    /// Tells where a view turns. Whether it was told.
    pub(crate) fn tell(&mut self, view: EndView, is_now: bool) -> Result<bool, AllocError> {
        match view {
            EndView::Object(_) | EndView::Import(_) => Ok(false),
            EndView::Vow(place) => self.tell_promise(place, is_now),
            EndView::Field(call, _) => self.tell_results(call, is_now),
        }
    }

    /// Tells all turns of a view up to another one, or as far as they are told.
    pub(crate) fn tell_along(&mut self, from: EndView, to: EndView) -> Result<(), AllocError> {
        let mut walk = ViewWalk::new(from);
        for _ in 0..MAX_TURNS {
            if walk.view == to {
                break;
            }
            if self.turns.turn_of(walk.view) == NextView::Stays && !self.tell(walk.view, true)? {
                break;
            }
            let turn = self.turns.turn_of(walk.view);
            if !walk.goes_on(turn) {
                break;
            }
        }
        Ok(())
    }
}
