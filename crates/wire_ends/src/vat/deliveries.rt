//! Calls that wait: which of them are delivered, and which passed on, under the number under which they came.

use crate::end_tables::{CallPlace, call_number};
use crate::vat::Vat;
use crate::vat::views::{EndView, MAX_TURNS, NextView, ViewWalk};
use std::alloc::AllocError;
use wire_plan::PlannedCall;

impl Vat<'_> {
    /// The end of a view's walk where all that may be told early is told; None where it can lead nowhere.
    pub(crate) fn end_of(&mut self, from: EndView) -> Result<Option<EndView>, AllocError> {
        let mut walk = ViewWalk::new(from);
        for _ in 0..MAX_TURNS {
            match self.turns.turn_of(walk.view) {
                NextView::Stays => {
                    if !self.tell(walk.view, false)? {
                        return Ok(Some(walk.view));
                    }
                }
                turn if walk.goes_on(turn) => {}
                _ => break,
            }
        }
        Ok(None)
    }

    /// DELIVER.
    fn deliver(&mut self, call: usize, object: u64) -> Result<(), AllocError> {
        self.notes.log.deliver(call_number(call), object)?;
        self.turns.move_call(call, CallPlace::Served);
        self.turns.wake(EndView::Field(call, 0))
    }

    /// Delivers a call that waits, if it leads to an object; else it hangs on what stops it.
    pub(crate) fn settle(&mut self, call: usize) -> Result<(), AllocError> {
        let Some(goal) = self.turns.goal_of_waiting(call) else {
            return Ok(());
        };
        match self.end_of(goal)? {
            Some(EndView::Object(object)) => self.deliver(call, object),
            Some(view) => self.turns.hang(view, call),
            None => Ok(()),
        }
    }

    /// Looks again at the calls that were woken, and at those that wake of that.
    pub(crate) fn settle_woken(&mut self) -> Result<(), AllocError> {
        for _ in 0..u64::MAX {
            let Some(call) = self.turns.woken.pop_front() else {
                break;
            };
            self.settle(call)?;
        }
        Ok(())
    }

    /// The received call whose Return takes the results of the own Call at this place, if it was received.
    fn handed_on(&self, place: usize) -> Option<usize> {
        let opening = self.files.handed_on(place)?;
        self.received_calls.get(opening as u64).copied()
    }

    /// The first call that waits with this digest and leads to this target.
    fn first_alike(&self, digest: u64, target: EndView) -> Option<usize> {
        let calls = self.digests.get(&digest)?;
        let ahead = self.ahead();
        calls.iter().copied().find(|call| ahead.is_returned_itself(*call)
            && ahead.may_pass(*call, digest, target))
    }

    /// The received call that the own Call at this place passes on.
    pub(crate) fn passed_on(&self, place: usize, call: PlannedCall) -> Option<usize> {
        let target = self.numbers.view_of_own(call.aim)?;
        if self.files.own().ties.take_of(place).is_none() {
            return self.first_alike(call.digest, target);
        }
        let handed = self.handed_on(place)?;
        let may_pass = self.ahead().may_pass(handed, call.digest, target);
        may_pass.then_some(handed)
    }
}
