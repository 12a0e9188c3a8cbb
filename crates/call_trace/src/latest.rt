//! Places in a run, noted by vat and number.

ghost use Rattle.std.specs.Prelude.{◌≡◌, ◌==◌, ℕ, OnOk, max, if◌then◌else◌};
ghost use Rattle.call_trace.specs.Glue.Overtaking.{latest_place_in, latest_of, IsPlaceNoted};

use rising_table::RisingTable;
use std::alloc::{AllocError, Global};
use std::collections::BTreeMap;

/// The latest place that was noted for each number of each vat, and 0 where none was. Most numbers of a vat come in rising
/// order.
#[derive(Drop)]
pub(crate) struct Latest {
    alloc: Global,
    vats: BTreeMap<u32, RisingTable<usize>>,
}

/// The place that a vat's table has of this number.
fn place_in(places: &RisingTable<usize>, number: u64) -> usize
    ensures { result ≡ latest_place_in places.now number }
{
    places.get(number).copied().unwrap_or(0)
}

/// Notes a place in a vat's table, which counts where it is later than those before.
fn raise_in(places: &mut RisingTable<usize>, number: u64, place: usize) -> Result<(), AllocError>
    ensures { OnOk result ((n : ℕ) → latest_place_in places.new n
        ≡ (if number == n then max place (latest_place_in places.old n) else latest_place_in places.old n)) }
{
    if place_in(places, number) < place {
        places.put(number, place)?;
    }
    Ok(())
}

impl Latest {
    /// Before any is noted.
    pub(crate) fn new(alloc: Global) -> Latest
        ensures { (vat number : ℕ) → latest_of result vat number ≡ 0 }
    {
        Latest {
            alloc,
            vats: BTreeMap::new(alloc),
        }
    }

    /// The latest place that was noted for this number of this vat.
    pub(crate) fn of(&self, vat: u32, number: u64) -> usize
        ensures { result ≡ latest_of self.now vat number }
    {
        match self.vats.get(&vat) {
            Some(places) => place_in(places, number),
            None => 0,
        }
    }

    /// Notes a place, which counts where it is later than those before.
    pub(crate) fn raise(&mut self, vat: u32, number: u64, place: usize) -> Result<(), AllocError>
        ensures { OnOk result (IsPlaceNoted vat number place self.old self.new) }
    {
        match self.vats.get_mut(&vat) {
            Some(places) => raise_in(places, number, place),
            None => {
                let mut places = RisingTable::new(self.alloc);
                raise_in(&mut places, number, place)?;
                self.vats.insert(vat, places)?;
                Ok(())
            }
        }
    }
}
