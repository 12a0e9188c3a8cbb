//! An end's calls, its promises and the lives of its imports: where they turned, and who waits for that.

use crate::end_tables::{CallPlace, Known, Life, MadeCall, Promise};
use crate::vat::end_numbers::EndNumbers;
use crate::vat::views::{EndView, MAX_TURNS, NextView, ViewKey, ViewWalk};
use cap_frame::Path;
use std::alloc::{AllocError, Global};
use std::collections::{BTreeMap, VecDeque};
use wire_plan::{Planned, ReturnKind};
use wire_steps::Steps;

/// Calls, promises and lives of imports.
#[derive(Drop)]
pub(crate) struct EndTurns {
    alloc: Global,
    pub lives: Vec<Life>,
    pub promises: Vec<Promise>,
    pub calls: Vec<MadeCall>,
    /// What stands at the paths of results that are listed.
    results: BTreeMap<(u64, u32), EndView>,
    /// Calls that wait, by what stops them.
    hanging: BTreeMap<ViewKey, Vec<usize>>,
    /// Calls to be looked at again.
    pub woken: VecDeque<usize>,
}

impl EndTurns {
    /// No calls.
    pub(crate) fn new(alloc: Global) -> EndTurns {
        EndTurns {
            alloc,
            lives: Vec::new(alloc),
            promises: Vec::new(alloc),
            calls: Vec::new(alloc),
            results: BTreeMap::new(alloc),
            hanging: BTreeMap::new(alloc),
            woken: VecDeque::new(alloc),
        }
    }

    /// The state of a call.
    pub(crate) fn call(&self, call: usize) -> Option<MadeCall> {
        self.calls.get(call).copied()
    }

    /// A new call.
    pub(crate) fn new_call(&mut self, state: MadeCall) -> Result<usize, AllocError> {
        let call = self.calls.len();
        self.calls.push(state)?;
        Ok(call)
    }

    /// A call is elsewhere from now on.
    pub(crate) fn move_call(&mut self, call: usize, place: CallPlace) {
        if let Some(state) = self.calls.get_mut(call) {
            state.place = place;
        }
    }

    /// A received call goes out again.
    pub(crate) fn pass_call_on(&mut self, call: usize) {
        if let Some(state) = self.calls.get_mut(call) {
            state.place = CallPlace::Gone;
            state.is_asked = true;
        }
    }

    /// A call whose Return has no results goes, if it waits at this end.
    pub(crate) fn give_up(&mut self, call: usize, results: ReturnKind) {
        if results.are_none() && self.is_here(call) {
            self.move_call(call, CallPlace::Gone);
        }
    }

    /// Whether a call waits at this end.
    pub(crate) fn is_here(&self, call: usize) -> bool {
        let state = self.calls.get(call);
        state.is_some_and(|state| state.place == CallPlace::Here)
    }

    /// What a call that waits at this end is meant for, if that stands for anything.
    pub(crate) fn goal_of_waiting(&self, call: usize) -> Option<EndView> {
        let state = self.call(call);
        state.filter(|state| state.place == CallPlace::Here)?.goal
    }

    /// Whether a call is served here and isn't answered.
    pub(crate) fn is_to_be_told(&self, call: usize) -> bool {
        let state = self.calls.get(call);
        state.is_some_and(|state| state.place == CallPlace::Served && state.known == Known::NotYet)
    }

    /// A new promise.
    pub(crate) fn new_promise(&mut self, promise: Promise) -> Result<(u64, EndView), AllocError> {
        let place = self.promises.len();
        self.promises.push(promise)?;
        Ok((promise.reference, EndView::Vow(place)))
    }

    /// The reference of an own promise, or with which the life of an import began.
    pub(crate) fn reference_of(&self, view: EndView) -> Option<u64> {
        match view {
            EndView::Vow(place) => Some(self.promises.get(place)?.reference),
            EndView::Import(life) => Some(self.lives.get(life)?.reference),
            EndView::Object(_) | EndView::Field(_, _) => None,
        }
    }

    /// Where a view turned, if it is one that this end has.
    fn turn_if_there(&self, view: EndView) -> Option<NextView> {
        Some(match view {
            EndView::Object(_) => NextView::Stays,
            EndView::Vow(place) => self.promises.get(place)?.turn,
            EndView::Import(life) => self.lives.get(life)?.turn,
            EndView::Field(call, path) => match self.calls.get(call)?.known {
                Known::NotYet => NextView::Stays,
                Known::Nothing => NextView::Stops,
                Known::By(other) => NextView::To(EndView::Field(other, path)),
                Known::Listed => NextView::To(*self.results.get(&(call as u64, path))?),
            },
        })
    }

    /// Where a view turned.
    pub(crate) fn turn_of(&self, view: EndView) -> NextView {
        self.turn_if_there(view).unwrap_or(NextView::Stops)
    }

    /// Whether a view is reached over the connection.
    fn is_over(&self, view: EndView) -> bool {
        match view {
            EndView::Object(_) | EndView::Vow(_) => false,
            EndView::Import(_) => true,
            EndView::Field(call, _) => self.calls.get(call).is_some_and(|state| state.is_asked),
        }
    }

    /// Whether a view leads to something that isn't reached over the connection.
    pub(crate) fn leads_elsewhere(&self, from: EndView) -> bool {
        let mut walk = ViewWalk::new(from);
        for _ in 0..MAX_TURNS {
            if !self.is_over(walk.view) {
                return true;
            }
            let turn = self.turn_of(walk.view);
            if !walk.goes_on(turn) {
                break;
            }
        }
        false
    }

    /// A call hangs on what stops it.
    pub(crate) fn hang(&mut self, view: EndView, call: usize) -> Result<(), AllocError> {
        self.hanging
            .entry(view.turning_key())?
            .or_insert(Vec::new(self.alloc))
            .push(call)?;
        Ok(())
    }

    /// Calls that hang on a view are to be looked at again, since it turned.
    pub(crate) fn wake(&mut self, view: EndView) -> Result<(), AllocError> {
        if let Some(calls) = self.hanging.remove(&view.turning_key()) {
            for call in &calls {
                self.woken.push_back(*call)?;
            }
        }
        Ok(())
    }

    /// FULFIL: a promise turns to a view, which has this reference.
    pub(crate) fn fulfil(
        &mut self,
        log: &mut Steps,
        place: usize,
        named: (u64, EndView),
    ) -> Result<(), AllocError> {
        if let Some(promise) = self.promises.get_mut(place) {
            promise.turn = NextView::To(named.1);
            log.fulfil(promise.reference, named.0)?;
        }
        self.wake(EndView::Vow(place))
    }

    /// BREAK, where the promise hasn't turned.
    pub(crate) fn break_promise(
        &mut self,
        log: &mut Steps,
        place: usize,
    ) -> Result<(), AllocError> {
        if let Some(promise) = self.promises.get_mut(place) {
            if promise.turn == NextView::Stays {
                promise.turn = NextView::Stops;
                log.break_vow(promise.reference)?;
            }
        }
        Ok(())
    }

    /// The life of an import turns by its Resolve.
    pub(crate) fn resolve(
        &mut self,
        resolved: EndView,
        view: Option<EndView>,
    ) -> Result<(), AllocError> {
        if let EndView::Import(life) = resolved {
            if let Some(life) = self.lives.get_mut(life) {
                life.turn = view.map_or(NextView::Stops, |view| NextView::To(view));
            }
        }
        self.wake(resolved)
    }

    /// Whether something is listed at a path of a call's results.
    pub(crate) fn is_listed(&self, call: usize, path: u32) -> bool {
        self.results.get(&(call as u64, path)).is_some()
    }

    /// Lists one result: its call and the number of its path, the path, and what stands there.
    pub(crate) fn list_result(
        &mut self,
        at: (usize, u32),
        path: Path,
        named: (u64, EndView),
        listed: &mut Vec<(u64, Path)>,
    ) -> Result<(), AllocError> {
        listed.push((named.0, path))?;
        self.results.insert((at.0 as u64, at.1), named.1)?;
        Ok(())
    }

    /// So much is known of a call's results from now on.
    pub(crate) fn know(&mut self, call: usize, known: Known) -> Result<(), AllocError> {
        if let Some(state) = self.calls.get_mut(call) {
            state.known = known;
        }
        self.wake(EndView::Field(call, 0))
    }

    /// What the results of a Return that came in have of an own question's call.
    fn learn_fields(
        &mut self,
        numbers: &EndNumbers,
        call: usize,
        message: &Planned,
    ) -> Result<(), AllocError> {
        for field in &message.fields {
            let Some(entry) = message.entry(field.index) else {
                continue;
            };
            if let Some(view) = numbers.view_of_received(entry) {
                self.results.insert((call as u64, field.path), view)?;
            }
        }
        Ok(())
    }

    /// What a Return that isn't late tells of an own question's call.
    pub(crate) fn learn(
        &mut self,
        numbers: &EndNumbers,
        call: usize,
        results: ReturnKind,
        message: &Planned,
    ) -> Result<(), AllocError> {
        match results {
            ReturnKind::There => {
                self.learn_fields(numbers, call, message)?;
                self.know(call, Known::Listed)
            }
            ReturnKind::TakenFrom(number) => match numbers.answer(number) {
                Some(other) => self.know(call, Known::By(other.call)),
                None => self.know(call, Known::Nothing),
            },
            ReturnKind::Exception | ReturnKind::Canceled => self.know(call, Known::Nothing),
            ReturnKind::Elsewhere => Ok(()),
        }
    }
}
