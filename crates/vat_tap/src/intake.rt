//! What a tap takes in from one lane.

ghost use Rattle.std.specs.Prelude.{◌≡◌, ◌+◌, ◌≤◌, ◌++◌, length, IfOk, OnOk, OnErr};
ghost use mathlib.Core.List.{IsPrefix};
ghost use Rattle.rtrb.specs.Ring.{received, known_items, consumer_capacity};
ghost use Rattle.vat_tap.specs.Glue.Taps.{ring_of, Goes};

use crate::lane::Lane;
use rtrb::Consumer;
use std::alloc::AllocError;
use vat_log::Record;

/// The receiving end of a lane's ring, and what was taken from it so far.
#[derive(Drop)]
pub(crate) struct Intake {
    pub(crate) ring: Consumer<(u64, Record)>,
    pub(crate) taken: Vec<(u64, Record)>,
    ghost same: { taken.items ≡ received ring },
    ghost small: { consumer_capacity ring ≤ 65536 },
}

impl Intake {
    /// Takes what the ring is known to have. Where memory is refused, nothing is taken.
    fn take_known(&mut self) -> Result<u64, AllocError>
        ensures ring { ring_of self.new.ring ≡ ring_of self.old.ring }
        ensures ok { IfOk result (λ count.
            (self.new.taken.items ≡ self.old.taken.items ++ known_items self.old.ring)
            × (count ≡ length (known_items self.old.ring))
            × (count ≤ (ring_of self.old.ring).room) × (count ≤ 65536)) }
        ensures err { OnErr result (self.new.taken.items ≡ self.old.taken.items) }
    {
        let Intake { ring, taken, .. } = self;
        let found = ring.cached_slots();
        taken.reserve(found)?;
        for _ in 0..found {
            taken.push_reserved(ring.pop_known());
        }
        Ok(found as u64)
    }

    /// Takes what is found in the ring now, one ring's length at most, and answers how many records that is.
    pub(crate) fn take(&mut self) -> Result<u64, AllocError>
        ensures ring { ring_of self.new.ring ≡ ring_of self.old.ring }
        ensures ok { IfOk result (λ count. Goes self.old.taken.items self.new.taken.items count
            × (count ≤ (ring_of self.old.ring).room) × (count ≤ 65536)) }
        ensures err { OnErr result (self.new.taken.items ≡ self.old.taken.items) }
    {
        self.ring.slots();
        self.take_known()
    }

    /// Takes all that the lane recorded and that wasn't taken yet.
    pub(crate) fn take_all(&mut self, lane: &mut Lane) -> Result<(), AllocError>
        requires { lane.old.ring ≡ ring_of self.old.ring }
        ensures ring { ring_of self.new.ring ≡ ring_of self.old.ring }
        ensures lane { lane.new ≡ lane.old }
        ensures longer { IsPrefix self.old.taken.items self.new.taken.items }
        ensures ok { OnOk result (self.new.taken.items ≡ lane.old.recorded) }
    {
        self.ring.slots_beside(&mut lane.ring);
        self.take_known()?;
        Ok(())
    }
}
