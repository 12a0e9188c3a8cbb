//! The table of Resolves.

ghost use Rattle.std.specs.Prelude.{◌≡◌, None, Some, OnOk, IsTrue, if◌then◌else◌};
ghost use Rattle.decoded_records.specs.declared.table_key.TableKey.{TableKey};
ghost use Rattle.decoded_records.specs.Past.{names};
ghost use Rattle.vat_view.specs.Glue.KindTables.{resolve_at, has_room_to_resolve};

use decoded_records::TableKey;
use std::alloc::{AllocError, Global};
use std::collections::BTreeMap;

/// The number of the record that last resolved each promise, where one did. An entry without a number says nothing: it
/// holds room.
#[derive(Drop)]
pub(crate) struct Resolves {
    entries: BTreeMap<TableKey, Option<usize>>,
}

impl Resolves {
    /// Before any promise is resolved.
    pub(crate) fn new(alloc: Global) -> Resolves
        ensures { (i : TableKey) → resolve_at result i ≡ None }
    {
        Resolves {
            entries: BTreeMap::new(alloc),
        }
    }

    /// The number of the record that last resolved this promise, if one did.
    pub(crate) fn of(&self, promise: TableKey) -> Option<usize>
        ensures { result ≡ resolve_at self.now promise }
    {
        match self.entries.get(&promise) {
            Some(number) => *number,
            None => None,
        }
    }

    /// Makes room for the promise that a record resolves. What the table says stays as it is, where memory is refused
    /// too.
    pub(crate) fn room_for(&mut self, resolved: Option<TableKey>) -> Result<(), AllocError>
        ensures same { (i : TableKey) → resolve_at self.new i ≡ resolve_at self.old i }
        ensures room { OnOk result (IsTrue (has_room_to_resolve self.new resolved)) }
    {
        let Some(promise) = resolved else {
            return Ok(());
        };
        if self.entries.contains_key(&promise) {
            return Ok(());
        }
        self.entries.insert(promise, None)?;
        Ok(())
    }

    /// The record of this number resolved this promise, for which there is room.
    pub(crate) fn note_resolve(&mut self, resolved: Option<TableKey>, number: usize)
        requires { IsTrue (has_room_to_resolve self.old resolved) }
        ensures { (i : TableKey) → resolve_at self.new i
            ≡ (if names i resolved then Some number else resolve_at self.old i) }
    {
        let Some(promise) = resolved else {
            return;
        };
        if let Some(last) = self.entries.get_mut(&promise) {
            *last = Some(number);
        }
    }
}
