//! Records that are read ahead.

ghost use Rattle.std.specs.Prelude.{◌≡◌, [], ◌∷◌, ◌++◌, drop, length, slice_get, OnOk};
ghost use Rattle.std.specs.Option.{option_copied};

use std::alloc::{AllocError, Global};
use std::collections::VecDeque;
use std::marker::Model;
use vat_log::{Body, Record};

/// How many bytes the frame of a record has, if it has one.
fn frame_length(stored: &Record) -> usize {
    match stored.body() {
        Body::Send { frame, .. } | Body::Receive { frame, .. } => frame.len(),
        _ => 0,
    }
}

/// Lets the first so many records go. How many bytes the frames of the others have, where all have so many.
fn let_go(records: &mut VecDeque<Record>, count: usize, bytes: usize) -> usize
    ensures { records.new.items ≡ drop count records.old.items }
{
    if count >= records.len() {
        records.clear();
        return 0;
    }
    let mut left = bytes;
    for _ in 0..count {
        let gone = records.pop_front();
        left = left.saturating_sub(gone.as_ref().map_or(0, frame_length));
    }
    left
}

/// The records of a log that were read and aren't taken yet. To a contract it is the list of what they tell.
#[derive(Drop)]
pub(crate) struct RecordsAhead {
    // the first of these were taken, so many; they go when more is read
    records: VecDeque<Record>,
    taken: usize,
    // of the frames of all of these
    bytes: usize,
}

impl Model for RecordsAhead {
    ghost use Rattle.std.specs.Prelude.{◌≤◌, List, drop, length};
    ghost use Rattle.vat_log.specs.declared.body.Body.{Body};

    ghost Value = { List Body };

    ghost view = { λ ahead. drop ahead.taken ahead.records.items };

    ghost invariant = { λ ahead. ahead.taken ≤ length ahead.records.items };
}

impl RecordsAhead {
    /// None.
    pub(crate) fn new(alloc: Global) -> RecordsAhead
        ensures { result ≡ [] }
    {
        RecordsAhead {
            records: VecDeque::new(alloc),
            taken: 0,
            bytes: 0,
        }
    }

    /// How many there are.
    pub(crate) fn len(&self) -> usize
        ensures { result ≡ length self.now }
    {
        self.records.len() - self.taken
    }

    /// How many bytes their frames have, and those of the records that were taken since the last were let go.
    pub(crate) fn bytes(&self) -> usize {
        self.bytes
    }

    /// The first.
    pub(crate) fn first(&self) -> Option<&Record>
        ensures { option_copied result ≡ slice_get self.now 0 }
    {
        self.records.get(self.taken)
    }

    /// The first is taken.
    pub(crate) fn leave(&mut self)
        ensures { self.new ≡ drop 1 self.old }
    {
        if self.taken < self.records.len() {
            self.taken += 1;
        }
    }

    /// Those that were taken are let go.
    pub(crate) fn let_taken_go(&mut self)
        ensures { self.new ≡ self.old }
    {
        self.bytes = let_go(&mut self.records, self.taken, self.bytes);
        self.taken = 0;
    }

    /// One more behind them.
    pub(crate) fn push(&mut self, entry: Record) -> Result<(), AllocError>
        ensures { OnOk result (self.new ≡ self.old ++ entry ∷ []) }
    {
        let bytes = frame_length(&entry);
        self.records.push_back(entry)?;
        self.bytes = self.bytes.saturating_add(bytes);
        Ok(())
    }
}
