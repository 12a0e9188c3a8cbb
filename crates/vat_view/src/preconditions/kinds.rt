//! Of which kind lives are, and whether records keep it.

ghost use Rattle.std.specs.Prelude.{◌≡◌};
ghost use Rattle.std.specs.List.{list_all};
ghost use Rattle.decoded_records.specs.Lives.{descriptors};
ghost use Rattle.vat_view.specs.Glue.KindTables.{resolved_since, of_kind_by, keeps_by};

use crate::record::introduced::Introduced;
use crate::tables::turns::resolves::Resolves;
use decoded_records::{DecodedRecord, Origin, descriptors, is_promise, number_introduced};
use number_tables::ExportsImports;
use rpc_view::Descriptor;

/// Whether the last Resolve of a number came in its life, by the records where that began and where it stands.
pub(crate) fn resolved_since(origin: Option<Origin>, last: Option<usize>) -> bool
    ensures { result ≡ resolved_since origin last }
{
    match (origin, last) {
        (Some(origin), Some(last)) => origin.number < last,
        _ => false,
    }
}

/// Whether a descriptor is of the kind of a life that began so, if one did.
fn is_of_kind(descriptor: &Descriptor, origin: Option<Origin>) -> bool
    ensures { result ≡ of_kind_by descriptor.now origin }
{
    match origin {
        Some(origin) => origin.promised == is_promise(descriptor),
        None => true,
    }
}

/// Whether the number that a descriptor of the record that comes next introduces keeps its kind, by the tables before
/// it and what it introduces.
fn keeps_kind(
    lives: &ExportsImports,
    begun: &Introduced<'_>,
    resolves: &Resolves,
    next: &DecodedRecord,
    descriptor: &Descriptor,
) -> bool
    ensures { result ≡ keeps_by lives.now begun.now resolves.now next.now descriptor.now }
{
    let Some(number) = number_introduced(next, descriptor) else {
        return true;
    };
    let held = lives.origin_of(number);
    let origin = held.or(begun.origin_of(number));
    let resolved = resolved_since(held, resolves.of(number));
    is_of_kind(descriptor, origin) && !resolved
}

/// Whether every number that the record that comes next introduces keeps its kind.
pub(crate) fn keeps_kinds(
    lives: &ExportsImports,
    begun: &Introduced<'_>,
    resolves: &Resolves,
    next: &DecodedRecord,
) -> bool
    ensures { result ≡ list_all (keeps_by lives.now begun.now resolves.now next.now)
        (descriptors next.now) }
{
    descriptors(next).iter().all(|descriptor| keeps_kind(lives, begun, resolves, next, descriptor))
}
