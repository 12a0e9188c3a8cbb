//! What one record introduces.

ghost use Rattle.std.specs.Prelude.{◌≡◌};
ghost use Rattle.decoded_records.specs.Past.{same_id};
ghost use Rattle.decoded_records.specs.Lives.{descriptors};
ghost use Rattle.decoded_records.specs.Glue.Origins.{origins_from};
ghost use Rattle.vat_view.specs.Glue.Tables.{first_in, begun_origin};

use decoded_records::{DecodedRecord, Origin, TableKey, descriptors, is_cap, origin_by};
use number_tables::ExportsImports;

/// The numbers that a record introduces, with their origins: where its descriptors are few these are searched from
/// their beginning, and else a table is.
#[derive(Drop)]
pub(crate) enum Introduced<'a> {
    /// None.
    Nothing,
    /// Those of this record, which has this number in the log.
    Few(usize, &'a DecodedRecord),
    /// Each with its first origin.
    Many(ExportsImports),
}

/// How many descriptors are few.
pub(crate) const FEW: usize = 8;

/// Whether two numbers are one.
fn is_same(a: TableKey, b: TableKey) -> bool
    ensures { result ≡ same_id a b }
{
    a.connection == b.connection && a.ours == b.ours && a.number == b.number
}

/// The first origin of a number among those that a record of this number in the log introduces.
fn first_in(number: usize, event: &DecodedRecord, id: TableKey) -> Option<Origin>
    ensures { result ≡ first_in id (origins_from number event.now 0 0 (descriptors event.now)) }
{
    let mut before = 0;
    for (place, descriptor) in descriptors(event).iter().enumerate() {
        if let Some((found, origin)) = origin_by(number, event, place, before, descriptor) {
            if is_same(id, found) {
                return Some(origin);
            }
        }
        if is_cap(descriptor) {
            before += 1;
        }
    }
    None
}

impl Introduced<'_> {
    /// The first origin of a number, if the record introduces it.
    #[inline]
    pub(crate) fn origin_of(&self, number: TableKey) -> Option<Origin>
        ensures { result ≡ begun_origin self.now number }
    {
        match self {
            Introduced::Nothing => None,
            Introduced::Few(place, event) => first_in(*place, event, number),
            Introduced::Many(lives) => lives.origin_of(number),
        }
    }
}
