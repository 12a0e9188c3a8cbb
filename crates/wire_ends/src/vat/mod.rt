//! One end, as it was made up so far, and what it does: a file for each thing.

mod blocked;
mod deliveries;
mod end_files;
mod end_notes;
mod end_numbers;
pub(crate) mod end_turns;
mod holding_back;
mod number_lacks;
mod receiving;
mod reference_names;
mod sending;
mod telling;
pub(crate) mod views;
mod walking;

use crate::end_tables::AwaitedEcho;
use crate::queue::Queue;
use crate::vat::end_files::EndFiles;
use crate::vat::end_notes::EndNotes;
use crate::vat::end_numbers::EndNumbers;
use crate::vat::end_turns::EndTurns;
use crate::vat::views::ViewKey;
use crate::vat::walking::LookAhead;
use rising_table::RisingTable;
use std::alloc::{AllocError, Global};
use std::collections::BTreeMap;
use wire_cut::End;
use wire_plan::{Entry, WirePlan};

/// One end, as it was made up so far. What only asks for a part of it is a function of that part.
pub(crate) struct Vat<'a> {
    pub alloc: Global,
    pub files: EndFiles<'a>,
    pub notes: EndNotes,
    pub numbers: EndNumbers,
    pub turns: EndTurns,
    /// How many of its messages were sent.
    pub sent: usize,
    /// How many of the peer's messages were received.
    pub received: usize,
    /// The calls that the peer's frames brought, by their places.
    pub received_calls: RisingTable<usize>,
    /// Whether an own senderLoopback of a number waits for its echo.
    pub outstanding: RisingTable<bool>,
    /// The peer's senderLoopbacks that wait for their echo.
    pub pending: RisingTable<Option<AwaitedEcho>>,
    /// Calls that wait or waited, by their goal.
    pub waiting: BTreeMap<ViewKey, Queue>,
    /// Calls that wait or waited, by their digest.
    pub digests: BTreeMap<u64, Queue>,
    /// It sent an abort.
    pub is_aborted: bool,
    /// The message that goes out without the call that it hands on.
    pub hurried: Option<usize>,
    /// It holds promises until their Resolves come, as far as that goes.
    pub is_patient: bool,
    /// The message that is held back no longer.
    pub let_go: Option<usize>,
}

impl Drop for Vat<'_> {
    fn drop(self) {
        let Self {
            alloc: _,
            files: _,
            notes: _,
            numbers: _,
            turns: _,
            sent: _,
            received: _,
            received_calls: _,
            outstanding: _,
            pending: _,
            waiting: _,
            digests: _,
            is_aborted: _,
            hurried: _,
            is_patient: _,
            let_go: _,
        } = self;
    }
}

impl<'a> Vat<'a> {
    /// An end at its beginning. A patient one holds promises until their Resolves come, as far as that goes.
    pub(crate) fn new(alloc: Global, end: End, plan: &'a WirePlan, is_patient: bool) -> Vat<'a> {
        Vat {
            alloc,
            files: EndFiles { end, plan },
            notes: EndNotes::new(alloc),
            numbers: EndNumbers::new(alloc),
            turns: EndTurns::new(alloc),
            sent: 0,
            received: 0,
            received_calls: RisingTable::new(alloc),
            outstanding: RisingTable::new(alloc),
            pending: RisingTable::new(alloc),
            waiting: BTreeMap::new(alloc),
            digests: BTreeMap::new(alloc),
            is_aborted: false,
            hurried: None,
            is_patient,
            let_go: None,
        }
    }

    /// Where views lead, and what the own file says of that.
    pub(crate) fn ahead(&self) -> LookAhead<'_> {
        LookAhead {
            files: self.files,
            numbers: &self.numbers,
            turns: &self.turns,
        }
    }

    /// A table comes in: a new reference for each entry but none, in its order; imports are introduced.
    pub(crate) fn take_in_all(&mut self, entries: &[Entry]) -> Result<Vec<u64>, AllocError> {
        self.numbers.take_in_all(
            self.alloc,
            &mut self.turns.lives,
            &mut self.notes.references,
            entries,
        )
    }
}
