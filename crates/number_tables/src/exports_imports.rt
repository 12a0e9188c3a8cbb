//! The table of export and import numbers.

ghost use Rattle.std.specs.Prelude.{◌≡◌, ◌+◌, ◌-◌, ◌<◌, ◌==◌, ◌&&◌, Some, count_by, OnOk, OnErr, if◌then◌else◌};
ghost use Rattle.decoded_records.specs.declared.table_key.TableKey.{TableKey};
ghost use Rattle.decoded_records.specs.Past.{same_id};
ghost use Rattle.number_tables.specs.Glue.LifeTables.{life_at, held_count_at, origin_at, kept_origin, held_origin, raised_origin, begun_at};

use crate::by_connection::ByConnection;
use crate::life::NumberLife;
use decoded_records::{Origin, TableKey};
use std::alloc::{AllocError, Global};

/// This life's number is held once more, and the life begins here where the number wasn't held. Where it can't be, which
/// is answered as memory that is refused, nothing changes.
fn raise_life(life: &mut NumberLife, origin: Origin) -> Result<(), AllocError>
    ensures count { OnOk result (life.new.count ≡ life.old.count + 1) }
    ensures origin { OnOk result (begun_at life.new ≡ kept_origin (Some life.old) origin) }
    ensures err { OnErr result (life.new ≡ life.old) }
{
    if life.count == 0 {
        *life = NumberLife::new(1, origin)?;
        return Ok(());
    }
    life.count = life.count.checked_add(1).ok_or(AllocError)?;
    Ok(())
}

/// How often each number is held, and where its life began.
#[derive(Drop)]
pub struct ExportsImports {
    entries: ByConnection<NumberLife>,
}

impl ExportsImports {
    /// Before any number is held.
    pub fn new(alloc: Global) -> ExportsImports
        ensures { (i : TableKey) → held_count_at result i ≡ 0 }
    {
        ExportsImports {
            entries: ByConnection::new(alloc),
        }
    }

    /// Where its memory comes from.
    pub fn allocator(&self) -> Global {
        self.entries.allocator()
    }

    /// How often this number is held.
    pub fn count_of(&self, number: TableKey) -> u64
        ensures { result ≡ held_count_at self.now number }
    {
        match self.entries.get(number) {
            Some(life) => life.count,
            None => 0,
        }
    }

    /// Where the life of this number began, if it is held.
    pub fn origin_of(&self, number: TableKey) -> Option<Origin>
        ensures { result ≡ held_origin self.now number }
    {
        match self.entries.get(number) {
            Some(life) if life.count > 0 => Some(life.origin()),
            _ => None,
        }
    }

    /// This number is held once more, and its life begins here where it wasn't held. Where memory is refused, nothing
    /// changes; a count of 2^64, which takes as many introductions, is answered so too.
    fn raise(&mut self, number: TableKey, origin: Origin) -> Result<(), AllocError>
        ensures counts { OnOk result
            ((i : TableKey) → held_count_at self.new i
            ≡ held_count_at self.old i + (if same_id i number then 1 else 0)) }
        ensures origins { OnOk result
            ((i : TableKey) → origin_at self.new i
            ≡ (if same_id i number && (held_count_at self.old i == 0) then Some origin
            else origin_at self.old i)) }
        ensures err { OnErr result ((i : TableKey) → life_at self.new i ≡ life_at self.old i) }
    {
        match self.entries.get_mut(number) {
            Some(life) => raise_life(life, origin),
            None => self.entries.put(number, NumberLife::new(1, origin)?),
        }
    }

    /// This number is held so much less often, down to 0.
    pub fn lower(&mut self, number: TableKey, by: u64)
        ensures counts { (i : TableKey) → held_count_at self.new i
            ≡ held_count_at self.old i - (if same_id i number then by else 0) }
        ensures origins { (i : TableKey) → origin_at self.new i ≡ origin_at self.old i }
    {
        if let Some(life) = self.entries.get_mut(number) {
            *life = life.less(by);
        }
    }

    /// Each number is held less often by as often as it is one of these, down to 0.
    pub fn lower_each(&mut self, numbers: &[TableKey])
        ensures counts { (i : TableKey) → held_count_at self.new i
            ≡ held_count_at self.old i - count_by (same_id i) numbers.now }
        ensures origins { (i : TableKey) → origin_at self.new i ≡ origin_at self.old i }
    {
        for number in numbers {
            self.lower(*number, 1);
        }
    }

    /// Each number is held less often by as often as it is one of these, down to 0.
    pub fn lower_raised(&mut self, raised: &[(TableKey, Origin)])
        ensures counts { (i : TableKey) → held_count_at self.new i
            ≡ held_count_at self.old i - count_by (λ x. same_id i x.0) raised.now }
        ensures origins { (i : TableKey) → origin_at self.new i ≡ origin_at self.old i }
    {
        for (number, _) in raised {
            self.lower(*number, 1);
        }
    }

    /// Each number is held more often by as often as it is one of these, and its life begins with the first where it
    /// wasn't held. Where memory is refused, no count changes, and no origin of a number that is held.
    #[inline]
    pub fn raise_each(&mut self, introduced: &[(TableKey, Origin)]) -> Result<(), AllocError>
        ensures counts { OnOk result
            ((i : TableKey) → held_count_at self.new i
            ≡ held_count_at self.old i + count_by (λ x. same_id i x.0) introduced.now) }
        ensures origins { OnOk result
            ((i : TableKey) → origin_at self.new i
            ≡ raised_origin (held_count_at self.old i) (origin_at self.old i) i introduced.now) }
        ensures same_counts { OnErr result
            ((i : TableKey) → held_count_at self.new i ≡ held_count_at self.old i) }
        ensures same_origins { OnErr result
            ((i : TableKey) → 0 < held_count_at self.old i
            → origin_at self.new i ≡ origin_at self.old i) }
    {
        for (index, (number, origin)) in introduced.iter().enumerate() {
            if self.raise(*number, *origin).is_err() {
                let (raised, _) = introduced.split_at(index);
                self.lower_raised(raised);
                return Err(AllocError);
            }
        }
        Ok(())
    }
}
