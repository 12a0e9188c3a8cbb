//! A log up to one of its records.

use crate::number_lives::{Lives, NumberLife, number_described};
use crate::read_again::decoded;
use rpc_view::{Descriptor, Edition};
use std::alloc::{AllocError, Global};
use vat_log::{Body, VatLog};
use vat_rules::edition_of;
use vat_view::{DecodedRecord, VatState};

/// A record, and what the numbers of its log are before it.
pub struct Past<'a> {
    /// Where memory comes from.
    pub alloc: Global,
    /// The log.
    pub log: &'a VatLog,
    /// The record's number.
    pub at: usize,
    /// The record.
    pub event: DecodedRecord,
    /// What the records before it came to.
    pub state: VatState,
    /// These records, all or none of them.
    pub events: Vec<DecodedRecord>,
    /// The lives of the numbers that are watched.
    pub lives: Lives,
}

impl Drop for Past<'_> {
    fn drop(self) {
        let Self {
            alloc: _,
            log: _,
            at: _,
            event: _,
            state: _,
            events: _,
            lives: _,
        } = self;
    }
}

impl<'a> Past<'a> {
    /// The record of this number and the log before it, with these numbers watched. None where a frame isn't read.
    pub(crate) fn watching(
        alloc: Global,
        log: &'a VatLog,
        at: usize,
        event: DecodedRecord,
        lives: Lives,
    ) -> Result<Option<Past<'a>>, AllocError> {
        let mut past = Past {
            alloc,
            log,
            at,
            event,
            state: VatState::new(alloc),
            events: Vec::new(alloc),
            lives,
        };
        Ok(if past.walk()? { Some(past) } else { None })
    }

    /// Keeps this record, the next one, and says whether it can be applied.
    fn keep(&mut self, event: DecodedRecord, at: usize) -> Result<bool, AllocError> {
        let is_applied = self.lives.apply(&mut self.state, &event, at)?;
        self.events.push(event)?;
        Ok(is_applied)
    }

    /// Takes the record of this number, the next one, and says whether it can be read and applied.
    fn take(&mut self, at: usize) -> Result<bool, AllocError> {
        match decoded(self.alloc, self.log, at)? {
            Some(event) => self.keep(event, at),
            None => Ok(false),
        }
    }

    /// Takes the records before it, and says whether each of them can be applied.
    fn walk(&mut self) -> Result<bool, AllocError> {
        for at in 0..self.at {
            if !self.take(at)? {
                return Ok(false);
            }
        }
        Ok(true)
    }

    /// The record of this number and the log before it, with the numbers watched that it uses. None where a frame isn't read.
    pub fn of(alloc: Global, log: &'a VatLog, at: usize) -> Result<Option<Past<'a>>, AllocError> {
        let Some(event) = decoded(alloc, log, at)? else {
            return Ok(None);
        };
        let lives = Lives::of_record(alloc, &event)?;
        Past::watching(alloc, log, at, event, lives)
    }

    /// The edition of rpc.capnp by which the log is judged.
    pub fn edition(&self) -> Edition {
        edition_of(self.log)
    }

    /// Whether all records before it are there. Where they aren't, none that isn't found is said not to be.
    pub fn is_whole(&self) -> bool {
        self.events.len() == self.at
    }

    /// The record of this number among those before it.
    pub fn get(&self, number: usize) -> Option<&DecodedRecord> {
        self.events.get(number)
    }

    /// The first record before it, from this one on, that is as sought.
    pub fn find<F: Fn(&DecodedRecord) -> bool>(&self, from: usize, is_sought: F) -> Option<usize>
        requires { F.IsAlwaysCallable is_sought }
    {
        let events = self.events.as_slice().get(from..)?;
        let behind = events.iter().position(|event| is_sought(event))?;
        Some(from.saturating_add(behind))
    }

    /// The last record before it that is as sought.
    pub fn find_last<F: Fn(&DecodedRecord) -> bool>(&self, is_sought: F) -> Option<usize>
        requires { F.IsAlwaysCallable is_sought }
    {
        self.events.iter().rposition(|event| is_sought(event))
    }

    /// The first record behind it in the log whose body is as sought.
    pub fn find_behind<F: Fn(&Body) -> bool>(&self, is_sought: F) -> Option<usize>
        requires { F.IsAlwaysCallable is_sought }
    {
        let mut behind = self.at.saturating_add(1)..self.log.len();
        behind.find(|at| matches!(self.log.get(*at), Some(stored) if is_sought(stored.body())))
    }

    /// The life of the number that one of its descriptors names.
    pub fn life_of(&self, descriptor: &Descriptor) -> Option<NumberLife> {
        self.lives.of(number_described(&self.event, descriptor)?)
    }
}
