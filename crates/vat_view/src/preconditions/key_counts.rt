//! How often numbers stand in a list.

ghost use Rattle.std.specs.Prelude.{◌≡◌, ◌+◌, ◌-◌, ◌<◌, ◌^◌, OnOk, IfOk, if◌then◌else◌};
ghost use Rattle.decoded_records.specs.declared.table_key.TableKey.{TableKey};
ghost use Rattle.decoded_records.specs.Past.{same_id};
ghost use Rattle.vat_view.specs.Glue.Asking.{tally_at};

use decoded_records::TableKey;
use std::alloc::{AllocError, Global};
use std::collections::BTreeMap;

/// How often each number was counted.
#[derive(Drop)]
pub(crate) struct KeyCounts {
    entries: BTreeMap<TableKey, u64>,
}

impl KeyCounts {
    /// Before any is counted.
    pub(crate) fn new(alloc: Global) -> KeyCounts
        ensures { (i : TableKey) → tally_at result i ≡ 0 }
    {
        KeyCounts {
            entries: BTreeMap::new(alloc),
        }
    }

    /// How often this number was counted.
    fn of(&self, number: TableKey) -> u64
        ensures { result ≡ tally_at self.now number }
    {
        match self.entries.get(&number) {
            Some(count) => *count,
            None => 0,
        }
    }

    /// Counts this number once more, and answers how often it was counted now. The only error is that memory ran out.
    pub(crate) fn count(&mut self, number: TableKey) -> Result<u64, AllocError>
        requires { tally_at self.old number < 2 ^ 64 - 1 }
        ensures counts { OnOk result
            ((i : TableKey) → tally_at self.new i
            ≡ tally_at self.old i + (if same_id i number then 1 else 0)) }
        ensures answer { IfOk result (λ count. count ≡ tally_at self.old number + 1) }
    {
        let count = self.of(number) + 1;
        self.entries.insert(number, count)?;
        Ok(count)
    }
}
