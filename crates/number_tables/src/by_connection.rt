//! Tables by numbers of connections.

ghost use Rattle.std.specs.Prelude.{◌≡◌, Some, None, OnOk, OnErr, if◌then◌else◌};
ghost use Rattle.std.specs.Option.{option_copied, option_copied_mut};
ghost use Rattle.std.specs.Borrow.{sem};
ghost use Rattle.decoded_records.specs.declared.table_key.TableKey.{TableKey};
ghost use Rattle.decoded_records.specs.Past.{same_id};
ghost use Rattle.number_tables.specs.Glue.Sides.{side_of, value_at, LacksSide};
ghost use Rattle.number_tables.specs.Glue.LentSides.{lends_value_at};

use decoded_records::TableKey;
use rising_table::RisingTable;
use std::alloc::{AllocError, Global};

/// Which of the tables has this number.
#[inline(always)]
fn side(number: TableKey) -> u64
    ensures { result ≡ side_of number }
{
    let connection = u64::from(number.connection) * 2;
    if number.ours {
        connection + 1
    } else {
        connection
    }
}

/// Values by numbers of connections: for each connection and who gave the number out a table, by the number, since most
/// numbers come in rising order there. Both tables of a connection begin together, so that the tables' numbers rise too.
#[derive(Drop)]
pub(crate) struct ByConnection<V> {
    alloc: Global,
    tables: RisingTable<RisingTable<V>>,
}

impl<V: Drop> ByConnection<V> {
    /// Before any number has a value.
    pub(crate) fn new(alloc: Global) -> ByConnection<V>
        ensures { (i : TableKey) → value_at result i ≡ None }
    {
        ByConnection {
            alloc,
            tables: RisingTable::new(alloc),
        }
    }

    /// Where its memory comes from.
    pub(crate) fn allocator(&self) -> Global {
        self.alloc
    }

    /// The value of this number, if it has one.
    #[inline(always)]
    pub(crate) fn get(&self, number: TableKey) -> Option<&V>
        ensures { option_copied result ≡ value_at self.now number }
    {
        match self.tables.get(side(number)) {
            Some(table) => table.get(u64::from(number.number)),
            None => None,
        }
    }

    /// The value of this number, to be changed, if it has one.
    #[inline]
    pub(crate) fn get_mut(&mut self, number: TableKey) -> Option<&mut V>
        ensures* writes_back { sem 𝓛 (lends_value_at V.row self.entry number result) }
        ensures value { option_copied_mut result ≡ value_at self.old number }
    {
        match self.tables.get_mut(side(number)) {
            Some(table) => table.get_mut(u64::from(number.number)),
            None => None,
        }
    }

    /// A table without values for this side, if it has none yet. What the tables say stays as it is, where memory is
    /// refused too.
    fn begin_side(&mut self, side: u64) -> Result<(), AllocError>
        ensures { (i : TableKey) → value_at self.new i ≡ value_at self.old i }
    {
        if self.tables.has(side) {
            return Ok(());
        }
        self.tables.put(side, RisingTable::new(self.alloc))
    }

    /// This number has this value from now on, the first of its side. Where memory is refused, nothing changes.
    fn put_first(&mut self, number: TableKey, value: V) -> Result<(), AllocError>
        requires { LacksSide self.old (side_of number) }
        ensures ok { OnOk result
            ((i : TableKey) → value_at self.new i
            ≡ (if same_id number i then Some value else value_at self.old i)) }
        ensures err { OnErr result ((i : TableKey) → value_at self.new i ≡ value_at self.old i) }
    {
        let mut table = RisingTable::new(self.alloc);
        table.put(u64::from(number.number), value)?;
        self.tables.put(side(number), table)
    }

    /// This number has this value from now on. Where memory is refused, nothing changes.
    pub(crate) fn put(&mut self, number: TableKey, value: V) -> Result<(), AllocError>
        ensures ok { OnOk result
            ((i : TableKey) → value_at self.new i
            ≡ (if same_id number i then Some value else value_at self.old i)) }
        ensures err { OnErr result ((i : TableKey) → value_at self.new i ≡ value_at self.old i) }
    {
        if let Some(table) = self.tables.get_mut(side(number)) {
            return table.put(u64::from(number.number), value);
        }
        self.begin_side(u64::from(number.connection) * 2)?;
        self.put_first(number, value)
    }
}
