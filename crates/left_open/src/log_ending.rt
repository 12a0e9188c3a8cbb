//! What is open at the end of a log.

ghost use Rattle.std.specs.Prelude.{◌≡◌, ◌↔◌, IfOk, IfSome, MatchOption, AllPairs, Contains, reverse};
ghost use Rattle.decoded_records.specs.Past.{Each};
ghost use Rattle.vat_view.specs.Sound.{IsSound};
ghost use Rattle.left_open.specs.declared.open_things.Open.{Open};
ghost use Rattle.left_open.specs.Left.{IsOpen, OpensBefore};

use crate::listing::list_open;
use crate::open_things::Open;
use crate::watching::{Watched, watch};
use std::alloc::{AllocError, Global};
use vat_view::DecodedRecord;

/// What is open at the end of a log with these records, in the order of the records that opened it, and of one record in
/// the order of its descriptors. None where a record names, uses or gives back what it shouldn't, as none of a good log
/// does: then its numbers stand for nothing.
///
/// # Errors
///
/// Out of memory.
pub fn open_at_end(
    alloc: Global,
    records: &[DecodedRecord],
) -> Result<Option<Vec<Open>>, AllocError>
    // None is answered just where a record isn't as it should be after those before it.
    // (The newest record of a point of a log comes first, so a log's end is its records in reverse.)
    ensures none { IfOk result (λ found. MatchOption found
        (Each IsSound (reverse records.now) → ⊥)
        (λ _. Each IsSound (reverse records.now))) }
    // What is listed is just what is open.
    ensures exact { IfOk result (λ found. IfSome found
        (λ list. (o : Open) → Contains list.items o ↔ IsOpen (reverse records.now) o)) }
    // Each comes once, in the order of opening.
    ensures in_order { IfOk result (λ found. IfSome found
        (λ list. AllPairs OpensBefore list.items)) }
{
    let mut watched = Watched::new(alloc);
    match watch(alloc, records, &mut watched)? {
        Some(state) => Ok(Some(list_open(alloc, &watched, &state, records)?)),
        None => Ok(None),
    }
}
