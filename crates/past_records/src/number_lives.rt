//! The lives of the export and import numbers that a record uses, watched while the records before it are applied.

use rpc_view::Descriptor;
use std::alloc::{AllocError, Global};
use std::fmt::{self, Display, Formatter};
use vat_view::{DecodedRecord, Number, TableKey, VatState};

/// How many numbers of a record are watched, at most.
const MOST: usize = 16;

/// What was seen of a number.
#[derive(Clone, Copy)]
pub struct NumberLife {
    /// The number, an export or an import.
    pub key: TableKey,
    /// How often it is held.
    pub held: u64,
    /// The record where its last life began.
    pub began: Option<usize>,
    /// The record that gave back of it last.
    pub lowered: Option<usize>,
    /// The record where that life ended.
    pub ended: Option<usize>,
}

/// The numbers that are watched.
#[derive(Drop)]
pub struct Lives {
    items: Vec<NumberLife>,
}

/// The number that one of a record's descriptors uses or introduces, where it is an export or an import.
pub(crate) fn number_described(event: &DecodedRecord, descriptor: &Descriptor) -> Option<TableKey> {
    let introduced = event.number_introduced(descriptor);
    introduced.or(event.number_described(descriptor))
}

/// The number that a record names beside its capability table.
pub(crate) fn number_named(event: &DecodedRecord) -> Option<TableKey> {
    let used = event.number_targeted().or(event.number_released());
    used.or(event.promise_resolved())
}

impl NumberLife {
    /// Sees how often it is held behind the record of this number.
    fn see(&mut self, held: u64, at: usize) {
        if held < self.held {
            self.lowered = Some(at);
        }
        if self.held == 0 && held > 0 {
            self.began = Some(at);
            self.ended = None;
        }
        if self.held > 0 && held == 0 {
            self.ended = Some(at);
        }
        self.held = held;
    }
}

impl Lives {
    /// No number.
    pub(crate) fn none(alloc: Global) -> Lives {
        let items = Vec::new(alloc);
        Lives { items }
    }

    /// Watches this number too, unless there are too many.
    fn add(&mut self, key: TableKey) -> Result<(), AllocError> {
        if self.items.len() < MOST && self.of(key).is_none() {
            self.items.push(NumberLife {
                key,
                held: 0,
                began: None,
                lowered: None,
                ended: None,
            })?;
        }
        Ok(())
    }

    /// Watches the numbers of a record's descriptors too.
    pub(crate) fn add_described(&mut self, event: &DecodedRecord) -> Result<(), AllocError> {
        let described = event.descriptors().iter();
        for key in described.filter_map(|one| number_described(event, one)) {
            self.add(key)?;
        }
        Ok(())
    }

    /// The numbers that a record uses or introduces.
    pub(crate) fn of_record(alloc: Global, event: &DecodedRecord) -> Result<Lives, AllocError> {
        let mut lives = Lives::none(alloc);
        if let Some(key) = number_named(event) {
            lives.add(key)?;
        }
        lives.add_described(event)?;
        Ok(lives)
    }

    /// Sees what the record of this number, which was applied last, did to each.
    fn see(&mut self, state: &VatState, at: usize) {
        for life in &mut self.items {
            let key = life.key;
            let number = if key.ours {
                Number::Export(key.number)
            } else {
                Number::Import(key.number)
            };
            life.see(state.held(key.connection, number), at);
        }
    }

    /// Applies the record of this number, and says whether it can be; where it can't, nothing changes.
    pub(crate) fn apply(
        &mut self,
        state: &mut VatState,
        event: &DecodedRecord,
        at: usize,
    ) -> Result<bool, AllocError> {
        if !state.is_sound(event)? {
            return Ok(false);
        }
        state.apply(event)?;
        self.see(state, at);
        Ok(true)
    }

    /// What was seen of each.
    pub(crate) fn each(&self) -> &[NumberLife] {
        &self.items
    }

    /// What was seen of a number.
    pub fn of(&self, key: TableKey) -> Option<NumberLife> {
        self.items.iter().find(|life| life.key == key).copied()
    }
}

/// A number and its connection, behind the word for its kind.
#[derive(Clone, Copy)]
pub struct NumberText(pub TableKey);

impl Display for NumberText {
    fn fmt<W: fmt::Write>(&self, f: &mut Formatter<W>) -> fmt::Result {
        let key = self.0;
        write!(f, "{} of connection {}", key.number, key.connection)
    }
}

impl Display for NumberLife {
    fn fmt<W: fmt::Write>(&self, f: &mut Formatter<W>) -> fmt::Result {
        let kind = if self.key.ours { "export" } else { "import" };
        write!(f, "{kind} {}", NumberText(self.key))
    }
}
