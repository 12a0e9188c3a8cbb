//! Lives of numbers.

ghost use Rattle.std.specs.Prelude.{◌≡◌, ◌-◌, IfOk};
ghost use Rattle.number_tables.specs.Glue.LifeTables.{begun_at};

use decoded_records::Origin;
use std::alloc::AllocError;

/// What is known of an export or import number, kept in little room since there is one for each number of a log.
#[derive(Clone, Copy)]
pub(crate) struct NumberLife {
    /// How often it is held.
    pub(crate) count: u64,
    /// The number of the record where its life began; of no use where it isn't held, as all that follows.
    number: u32,
    /// The place of the descriptor there.
    place: u32,
    /// Whether that descriptor is a senderPromise.
    promised: bool,
    /// Whether a reference was noted for that descriptor.
    noted: bool,
    /// That reference.
    reference: u64,
}

impl NumberLife {
    /// A number that is held so often, and whose life began so. A record's number or a place of 2^32 or more, which no
    /// log reaches, is answered as out of memory is.
    pub(crate) fn new(count: u64, origin: Origin) -> Result<NumberLife, AllocError>
        ensures count { IfOk result (λ life. life.count ≡ count) }
        ensures origin { IfOk result (λ life. begun_at life ≡ origin) }
    {
        let (Ok(number), Ok(place)) = (u32::try_from(origin.number), u32::try_from(origin.place))
        else {
            return Err(AllocError);
        };
        Ok(NumberLife {
            count,
            number,
            place,
            promised: origin.promised,
            noted: origin.reference.is_some(),
            reference: origin.reference.unwrap_or(0),
        })
    }

    /// Where its life began.
    pub(crate) fn origin(self) -> Origin
        ensures { result ≡ begun_at self }
    {
        let reference = if self.noted {
            Some(self.reference)
        } else {
            None
        };
        Origin {
            number: self.number as usize,
            place: self.place as usize,
            promised: self.promised,
            reference,
        }
    }

    /// The same number, held so much less often, down to 0.
    pub(crate) fn less(self, by: u64) -> NumberLife
        ensures count { result.count ≡ self.count - by }
        ensures origin { begun_at result ≡ begun_at self }
    {
        NumberLife {
            count: self.count.saturating_sub(by),
            ..self
        }
    }
}
