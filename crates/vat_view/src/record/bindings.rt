//! Which references a record binds, and to which views.

ghost use Rattle.std.specs.Prelude.{◌≡◌, false, IfOk};
ghost use Rattle.decoded_records.specs.Lives.{descriptors};
ghost use Rattle.decoded_records.specs.Views.{references};
ghost use Rattle.vat_view.specs.Glue.Plain.{received_bindings};
ghost use Rattle.vat_view.specs.Glue.Tables.{bound_at, origins_if, AreBegun, sender_view, view_by, reference_by, bound_one, bound_from};
ghost use Rattle.number_tables.specs.Glue.QuestionTables.{question_at};

use crate::lookups::meaning::{field_of, view_from, view_of_number};
use crate::record::introduced::{FEW, Introduced};
use crate::tables::references::BoundReferences;
use decoded_records::{
    DecodedRecord, ShortList, TableKey, View, descriptors, is_cap, origins, references,
};
use number_tables::{ExportsImports, Questions};
use rpc_view::Descriptor;
use std::alloc::{AllocError, Global};
use std::slice;

/// What a record of this number introduces that isn't a late Return, as a table with the place of the first of each.
fn tabled_introductions<'a>(
    alloc: Global,
    number: usize,
    event: &'a DecodedRecord,
) -> Result<Introduced<'a>, AllocError>
    ensures { IfOk result (λ begun. AreBegun (origins_if false number event.now) begun) }
{
    let origins = origins(alloc, false, number, event)?;
    let mut begun = ExportsImports::new(alloc);
    begun.raise_each(origins.as_slice())?;
    Ok(Introduced::Many(begun))
}

/// What a record of this number introduces, with the place of the first of each; a late Return's introductions aren't
/// counted.
pub(crate) fn introduced_by<'a>(
    alloc: Global,
    late: bool,
    number: usize,
    event: &'a DecodedRecord,
) -> Result<Introduced<'a>, AllocError>
    ensures { IfOk result (λ begun. AreBegun (origins_if late number event.now) begun) }
{
    if late {
        return Ok(Introduced::Nothing);
    }
    if descriptors(event).len() <= FEW {
        return Ok(Introduced::Few(number, event));
    }
    tabled_introductions(alloc, number, event)
}

/// What a number of the sender stands for with a record counted: its life began before, or begins there.
fn sender_view(
    bound: &BoundReferences,
    lives: &ExportsImports,
    begun: &Introduced<'_>,
    number: TableKey,
) -> Result<Option<View>, AllocError>
    ensures { IfOk result (λ v. v ≡ sender_view (bound_at bound.now) lives.now begun.now number) }
{
    match lives.origin_of(number).or(begun.origin_of(number)) {
        Some(origin) => view_from(bound, number.ours, origin),
        None => Ok(None),
    }
}

/// What a descriptor of a record stands for, by the tables before it and what it introduces.
pub(crate) fn view_by(
    bound: &BoundReferences,
    lives: &ExportsImports,
    begun: &Introduced<'_>,
    questions: &Questions,
    event: &DecodedRecord,
    descriptor: &Descriptor,
) -> Result<Option<View>, AllocError>
    ensures { IfOk result
        (λ v. v ≡ view_by (bound_at bound.now) lives.now begun.now
        (question_at questions.now) event.now descriptor.now) }
{
    let DecodedRecord::Wire {
        sent,
        connection,
        ..
    } = event
    else {
        return Ok(None);
    };
    match descriptor {
        Descriptor::NoCap => Ok(None),
        Descriptor::SenderHosted(n) | Descriptor::SenderPromise(n) => {
            let id = TableKey::of_sender(*sent, *connection, *n);
            sender_view(bound, lives, begun, id)
        }
        Descriptor::ReceiverHosted(n) => {
            let id = TableKey::of_receiver(*sent, *connection, *n);
            view_of_number(bound, lives, id)
        }
        Descriptor::ReceiverAnswer(q, path) => {
            let id = TableKey::of_sender(*sent, *connection, *q);
            field_of(questions, id, path)
        }
    }
}

/// The reference noted for a descriptor, where so many were noted before it.
pub(crate) fn reference_by(
    references: &[u64],
    before: usize,
    descriptor: &Descriptor,
) -> Option<u64>
    ensures { result ≡ reference_by references.now before descriptor.now }
{
    if is_cap(descriptor) {
        references.get(before).copied()
    } else {
        None
    }
}

/// The references noted for the descriptors of a record, with what these stand for.
fn many_bound(
    alloc: Global,
    bound: &BoundReferences,
    lives: &ExportsImports,
    begun: &Introduced<'_>,
    questions: &Questions,
    event: &DecodedRecord,
) -> Result<Vec<(u64, View)>, AllocError>
    ensures { IfOk result
        (λ list. list.items
        ≡ bound_from (view_by (bound_at bound.now) lives.now begun.now
        (question_at questions.now) event.now) (references event.now) 0 (descriptors event.now)) }
{
    let mut list = Vec::new(alloc);
    let noted = references(event);
    let mut before = 0;
    for descriptor in descriptors(event) {
        if let Some(reference) = reference_by(noted, before, descriptor) {
            if let Some(view) = view_by(bound, lives, begun, questions, event, descriptor)? {
                list.push((reference, view))?;
            }
        }
        if is_cap(descriptor) {
            before += 1;
        }
    }
    Ok(list)
}

/// The reference noted for the first descriptor of a record, with what that stands for.
fn first_bound(
    bound: &BoundReferences,
    lives: &ExportsImports,
    begun: &Introduced<'_>,
    questions: &Questions,
    event: &DecodedRecord,
    descriptor: &Descriptor,
) -> Result<Option<(u64, View)>, AllocError>
    ensures { IfOk result
        (λ first. first
        ≡ bound_one (view_by (bound_at bound.now) lives.now begun.now
        (question_at questions.now) event.now) descriptor.now
        (reference_by (references event.now) 0 descriptor.now)) }
{
    let Some(reference) = reference_by(references(event), 0, descriptor) else {
        return Ok(None);
    };
    match view_by(bound, lives, begun, questions, event, descriptor)? {
        Some(view) => Ok(Some((reference, view))),
        None => Ok(None),
    }
}

/// The references noted for the descriptors of a record, with what these stand for.
fn bound_descriptors(
    alloc: Global,
    bound: &BoundReferences,
    lives: &ExportsImports,
    begun: &Introduced<'_>,
    questions: &Questions,
    event: &DecodedRecord,
) -> Result<ShortList<(u64, View)>, AllocError>
    ensures { IfOk result
        (λ list. list
        ≡ bound_from (view_by (bound_at bound.now) lives.now begun.now
        (question_at questions.now) event.now) (references event.now) 0 (descriptors event.now)) }
{
    match descriptors(event) {
        [] => Ok(ShortList::none()),
        [descriptor] => {
            match first_bound(bound, lives, begun, questions, event, descriptor)? {
                Some(first) => Ok(ShortList::one(first)),
                None => Ok(ShortList::none()),
            }
        }
        _ => Ok(ShortList::new(many_bound(alloc, bound, lives, begun, questions, event)?)),
    }
}

/// The references that a received message binds, with their views.
pub(crate) fn received_bindings(
    alloc: Global,
    bound: &BoundReferences,
    lives: &ExportsImports,
    begun: &Introduced<'_>,
    questions: &Questions,
    event: &DecodedRecord,
) -> Result<ShortList<(u64, View)>, AllocError>
    ensures { IfOk result
        (λ list. list
        ≡ received_bindings (bound_at bound.now) lives.now begun.now
        (question_at questions.now) event.now) }
{
    match event {
        DecodedRecord::Wire { sent: false, .. } => bound_descriptors(
            alloc, bound, lives, begun, questions, event,
        ),
        _ => Ok(ShortList::none()),
    }
}
