//! Calls that wait, in the order in which they came.

use crate::vat::end_turns::EndTurns;
use std::alloc::{AllocError, Global};
use std::collections::{VecDeque, vec_deque};

/// Calls that wait, or waited, in the order in which they came.
#[derive(Drop)]
pub(crate) struct Queue {
    calls: VecDeque<usize>,
}

impl Queue {
    /// No calls.
    pub(crate) fn new(alloc: Global) -> Queue {
        Queue {
            calls: VecDeque::new(alloc),
        }
    }

    /// A call waits behind the others. Those before it that have gone are left out.
    pub(crate) fn wait(&mut self, turns: &EndTurns, call: usize) -> Result<(), AllocError> {
        self.leave(turns);
        self.calls.push_back(call)?;
        Ok(())
    }

    /// Leaves out the first ones that have gone.
    pub(crate) fn leave(&mut self, turns: &EndTurns) {
        for _ in 0..self.calls.len() {
            match self.calls.front() {
                Some(call) if !turns.is_here(*call) => {}
                _ => break,
            }
            let _ = self.calls.pop_front();
        }
    }

    /// The calls, in their order; some may have gone.
    pub(crate) fn iter(&self) -> vec_deque::Iter<'_, usize> {
        self.calls.iter()
    }
}
