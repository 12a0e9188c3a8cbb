//! What was recorded, in the order of its tickets.

ghost use Rattle.std.specs.Prelude.{◌≡◌, ◌++◌, map, slice_set, OnOk, IfOk};
ghost use Rattle.vat_tap.specs.Glue.Taps.{put, in_ticket_order};

use std::alloc::{AllocError, Global};
use vat_log::Record;

/// Lends these behind those that are lent already.
pub(crate) fn lend<'a>(
    all: &mut Vec<&'a (u64, Record)>,
    taken: &'a [(u64, Record)],
) -> Result<(), AllocError>
    ensures { OnOk result (map (λ item. item.now) all.new.items
        ≡ map (λ item. item.now) all.old.items ++ taken.now) }
{
    for item in taken {
        all.push(item)?;
    }
    Ok(())
}

/// The records alone.
fn records_of<'a>(alloc: Global, all: &[&'a (u64, Record)]) -> Result<Vec<&'a Record>, AllocError>
    ensures { IfOk result (λ v.
        map (λ entry. entry.now) v.items ≡ map (λ item. item.now.1) all.now) }
{
    let mut records = Vec::new(alloc);
    for item in all {
        records.push(&item.1)?;
    }
    Ok(records)
}

/// Puts a record at its ticket, if that is one of the places.
#[tactic(auto, using(crate::proofs::Placing::set_seen, crate::proofs::Placing::set_unseen))]
fn put_one<'a>(records: &mut Vec<&'a Record>, item: &'a (u64, Record))
    ensures { map (λ entry. entry.now) records.new.items
        ≡ slice_set (map (λ entry. entry.now) records.old.items) item.now.0 item.now.1 }
{
    let place = item.0 as usize;
    if place < records.len() {
        records[place] = &item.1;
    }
}

/// Puts each record at its ticket.
fn put_each<'a>(records: &mut Vec<&'a Record>, all: &[&'a (u64, Record)])
    ensures { map (λ entry. entry.now) records.new.items
        ≡ put (map (λ entry. entry.now) records.old.items) (map (λ item. item.now) all.now) }
{
    for item in all {
        put_one(records, item);
    }
}

/// The records in the order of their tickets, if these are those from 0 on, each once. The list begins with the records in
/// any order, so that no place is ever empty; then each is put at its ticket.
pub(crate) fn in_order<'a>(
    alloc: Global,
    all: &[&'a (u64, Record)],
) -> Result<Vec<&'a Record>, AllocError>
    ensures { IfOk result (λ v.
        map (λ entry. entry.now) v.items ≡ in_ticket_order (map (λ item. item.now) all.now)) }
{
    let mut records = records_of(alloc, all)?;
    put_each(&mut records, all);
    Ok(records)
}
