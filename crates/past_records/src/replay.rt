//! The records of a log applied one by one, of which none is kept.

use crate::number_lives::Lives;
use crate::records_before::Past;
use std::alloc::{AllocError, Global};
use vat_log::VatLog;
use vat_view::{DecodedRecord, VatState};

/// What the records of a log came to so far, and the lives of the numbers that are watched.
pub struct Replay {
    state: VatState,
    lives: Lives,
    count: usize,
}

impl Drop for Replay {
    fn drop(self) {
        let Self {
            state: _,
            lives: _,
            count: _,
        } = self;
    }
}

impl Replay {
    /// Before the first record. The numbers that this record uses or introduces are watched.
    pub fn watching(alloc: Global, event: &DecodedRecord) -> Result<Replay, AllocError> {
        Ok(Replay {
            state: VatState::new(alloc),
            lives: Lives::of_record(alloc, event)?,
            count: 0,
        })
    }

    /// Applies the next record, and says whether it can be; where it can't, nothing changes.
    pub fn take(&mut self, event: &DecodedRecord) -> Result<bool, AllocError> {
        let is_applied = self.lives.apply(&mut self.state, event, self.count)?;
        self.count = self.count.saturating_add(usize::from(is_applied));
        Ok(is_applied)
    }

    /// The next record, and what those before it came to, none of which is kept. The log, in which they would stand, has none.
    pub fn before<'a>(self, alloc: Global, log: &'a VatLog, event: DecodedRecord) -> Past<'a> {
        let Replay {
            state,
            lives,
            count,
        } = self;
        Past {
            alloc,
            log,
            at: count,
            event,
            state,
            events: Vec::new(alloc),
            lives,
        }
    }
}
