//! What an end notes in its log, and the references that it names there.

use crate::end_tables::call_number;
use crate::second_references::EndSteps;
use crate::vat::views::EndView;
use cap_frame::Path;
use rising_table::RisingTable;
use std::alloc::{AllocError, Global};
use std::collections::BTreeMap;
use std::mem;
use wire_steps::Steps;

/// The number of the first object that is made up. Those below are hosted under the export of the same number.
const FIRST_MADE: u64 = 1 << 32;

/// The call that is noted where none is.
pub(crate) const NO_CALL: u64 = 0;

/// A new reference, where so many were made.
pub(crate) fn next_reference(made: &mut u64) -> u64 {
    *made = made.saturating_add(1);
    *made
}

/// What an end notes.
#[derive(Drop)]
pub(crate) struct EndNotes {
    alloc: Global,
    /// Its steps.
    pub log: Steps,
    /// How many references there are.
    pub references: u64,
    /// The references of objects that were made up.
    made: Vec<u64>,
    /// The references of objects that are hosted as exports.
    hosted: RisingTable<u64>,
    /// The references of results.
    fields: BTreeMap<(u64, u32), u64>,
}

impl EndNotes {
    /// Nothing is noted.
    pub(crate) fn new(alloc: Global) -> EndNotes {
        EndNotes {
            alloc,
            log: Steps::new(alloc),
            references: 0,
            made: Vec::new(alloc),
            hosted: RisingTable::new(alloc),
            fields: BTreeMap::new(alloc),
        }
    }

    /// Takes the steps out.
    pub(crate) fn take_steps(&mut self) -> EndSteps {
        EndSteps {
            steps: mem::replace(&mut self.log, Steps::new(self.alloc)).into_steps(),
            references: self.references,
        }
    }

    /// The reference of an object, if it has one.
    fn reference_of(&self, object: u64) -> Option<u64> {
        match object.checked_sub(FIRST_MADE) {
            Some(place) => self.made.get(place as usize).copied(),
            None => self.hosted.get(object).copied(),
        }
    }

    /// The reference of an object that was made up, or is hosted as an export.
    pub(crate) fn hosted(&mut self, object: u64) -> Result<u64, AllocError> {
        if let Some(reference) = self.reference_of(object) {
            return Ok(reference);
        }
        let reference = next_reference(&mut self.references);
        self.log.host(reference, object)?;
        self.hosted.put(object, reference)?;
        Ok(reference)
    }

    /// A new object that goes out nowhere: its reference and what that stands for.
    pub(crate) fn new_object(&mut self) -> Result<(u64, EndView), AllocError> {
        let reference = next_reference(&mut self.references);
        let object = FIRST_MADE.saturating_add(self.made.len() as u64);
        self.log.host(reference, object)?;
        self.made.push(reference)?;
        Ok((reference, EndView::Object(object)))
    }

    /// A new reference that is a promise.
    pub(crate) fn new_vow(&mut self) -> Result<u64, AllocError> {
        let reference = next_reference(&mut self.references);
        self.log.vow(reference)?;
        Ok(reference)
    }

    /// The reference of what stands at a path of a call's results, if it has one.
    pub(crate) fn field(&self, call: usize, path: u32) -> Option<u64> {
        self.fields.get(&(call as u64, path)).copied()
    }

    /// A new reference of what stands at a path of a call's results: the path's number, and the path.
    pub(crate) fn new_field(
        &mut self,
        call: usize,
        number: u32,
        path: Path,
    ) -> Result<u64, AllocError> {
        let reference = next_reference(&mut self.references);
        self.log.field(reference, call_number(call), path)?;
        self.fields.insert((call as u64, number), reference)?;
        Ok(reference)
    }

    /// SEND without a call and without references.
    pub(crate) fn send_bare(&mut self) -> Result<(), AllocError> {
        let references = Vec::new(self.alloc);
        self.log.send(NO_CALL, references)
    }

    /// RECV without a call and without references.
    pub(crate) fn receive_bare(&mut self) -> Result<(), AllocError> {
        let references = Vec::new(self.alloc);
        self.log.receive(NO_CALL, references)
    }
}
