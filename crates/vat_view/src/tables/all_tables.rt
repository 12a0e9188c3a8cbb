//! All tables of a vat's numbers.

ghost use Rattle.std.specs.Prelude.{◌≡◌, ◌+◌, [], ◌∷◌, length, true, false, Some, is_some, IsTrue, OnOk, OnErr};
ghost use Rattle.decoded_records.specs.Past.{Past};
ghost use Rattle.vat_view.specs.Sound.{IsSound};
ghost use Rattle.decoded_records.specs.Loopbacks.{sender_loopback};
ghost use Rattle.vat_view.specs.Glue.ArrivalTables.{arriving_over};
ghost use Rattle.vat_view.specs.Glue.TurnTables.{may_turn};
ghost use Rattle.vat_view.specs.Glue.Whole.{AreNoted, AreTold, AreWhole};

use crate::apply::apply_record::apply_record;
use crate::lookups::settling::{may_turn, settling_of};
use crate::tables::arrivals::{Arrivals, arriving_over};
use crate::tables::connections::Connections;
use crate::tables::references::BoundReferences;
use crate::tables::turns::resolves::Resolves;
use crate::tables::turns::settlements::Settlements;
use crate::tables::waits::embargoes::Embargoes;
use crate::tables::waits::loopbacks::{asks_for_echo, sender_loopback};
use crate::tables::waits::waiting_calls::{call_taken_by, heading_taken};
use decoded_records::{DecodedRecord, promise_resolved};
use number_tables::{Calls, ExportsImports, Questions};
use std::alloc::{AllocError, Global};

/// What is kept of the records that were applied.
pub(crate) struct AllTables {
    pub(crate) questions: Questions,
    pub(crate) lives: ExportsImports,
    pub(crate) bound: BoundReferences,
    pub(crate) calls: Calls,
    pub(crate) resolves: Resolves,
    pub(crate) turns: Settlements,
    pub(crate) connections: Connections,
    pub(crate) waits: Embargoes,
    pub(crate) arrivals: Arrivals,
}

impl Drop for AllTables {
    fn drop(self) {
        let Self {
            questions: _,
            lives: _,
            bound: _,
            calls: _,
            resolves: _,
            turns: _,
            connections: _,
            waits: _,
            arrivals: _,
        } = self;
    }
}

impl AllTables {
    /// Before any record. It takes no memory.
    pub(crate) fn new(alloc: Global) -> AllTables
        ensures { AreWhole [] 0 result }
    {
        AllTables {
            questions: Questions::new(alloc),
            lives: ExportsImports::new(alloc),
            bound: BoundReferences::new(alloc),
            calls: Calls::new(alloc),
            resolves: Resolves::new(alloc),
            turns: Settlements::new(alloc),
            connections: Connections::new(alloc),
            waits: Embargoes::new(alloc),
            arrivals: Arrivals::new(alloc),
        }
    }

    /// Tells one record that may turn views, which has this number in the log, to all tables but those of what waits and
    /// of arrivals. None of these asks a question or aborts, so there is nothing to tell of connections. Where memory is
    /// refused, the tables are of the records before.
    fn note_turning(&mut self, number: usize, event: &DecodedRecord) -> Result<(), AllocError>
        requires { may_turn event.now ≡ true }
        ensures ok { OnOk result
            ((before : Past) → number ≡ length before → AreNoted before self.old
            → IsSound before event.now → AreNoted (event.now ∷ before) self.new) }
        ensures err { OnErr result
            ((before : Past) → number ≡ length before → AreNoted before self.old
            → IsSound before event.now → AreNoted before self.new) }
        ensures waits { self.new.waits ≡ self.old.waits }
        ensures arrivals { self.new.arrivals ≡ self.old.arrivals }
    {
        let alloc = self.lives.allocator();
        let settling = settling_of(alloc, &self.questions, &self.lives, &self.bound, event)?;
        self.turns.make_room(&settling, number)?;
        let promise = promise_resolved(event);
        self.resolves.room_for(promise)?;
        apply_record(
            number,
            &mut self.questions,
            &mut self.lives,
            &mut self.bound,
            &mut self.calls,
            event,
        )?;
        let again = self.turns.has(settling.settled);
        self.bound.drop_ahead(again);
        self.turns.drop_calls_ahead(again);
        self.turns.note(settling, number);
        self.resolves.note_resolve(promise, number);
        Ok(())
    }

    /// Tells one record that turns no view, which has this number in the log, to all tables but those of what waits and
    /// of arrivals. Where memory is refused, they are of the records before.
    #[inline(always)]
    fn note_still(&mut self, number: usize, event: &DecodedRecord) -> Result<(), AllocError>
        requires { may_turn event.now ≡ false }
        ensures ok { OnOk result
            ((before : Past) → number ≡ length before → AreNoted before self.old
            → IsSound before event.now → AreNoted (event.now ∷ before) self.new) }
        ensures err { OnErr result
            ((before : Past) → number ≡ length before → AreNoted before self.old
            → IsSound before event.now → AreNoted before self.new) }
        ensures waits { self.new.waits ≡ self.old.waits }
        ensures arrivals { self.new.arrivals ≡ self.old.arrivals }
    {
        self.connections.grow_for(event)?;
        apply_record(
            number,
            &mut self.questions,
            &mut self.lives,
            &mut self.bound,
            &mut self.calls,
            event,
        )?;
        self.connections.note_event(event);
        Ok(())
    }

    /// Tells one record, which has this number in the log, to all tables but those of what waits and of arrivals. Where
    /// memory is refused, they are of the records before. Most records turn no view, and there is less to tell of these.
    #[inline(always)]
    fn note(&mut self, number: usize, event: &DecodedRecord) -> Result<(), AllocError>
        ensures ok { OnOk result
            ((before : Past) → number ≡ length before → AreNoted before self.old
            → IsSound before event.now → AreNoted (event.now ∷ before) self.new) }
        ensures err { OnErr result
            ((before : Past) → number ≡ length before → AreNoted before self.old
            → IsSound before event.now → AreNoted before self.new) }
        ensures waits { self.new.waits ≡ self.old.waits }
        ensures arrivals { self.new.arrivals ≡ self.old.arrivals }
    {
        if may_turn(event) {
            self.note_turning(number, event)
        } else {
            self.note_still(number, event)
        }
    }

    /// Tells all tables but that of arrivals of a record that asks for an echo.
    fn tell_loopback(&mut self, number: usize, event: &DecodedRecord) -> Result<(), AllocError>
        requires { IsTrue (is_some (sender_loopback event.now)) }
        ensures ok { OnOk result
            ((before : Past) → number ≡ length before → AreTold before self.old
            → IsSound before event.now → AreTold (event.now ∷ before) self.new) }
        ensures err { OnErr result
            ((before : Past) → number ≡ length before → AreTold before self.old
            → IsSound before event.now → AreTold before self.new) }
        ensures arrivals { self.new.arrivals ≡ self.old.arrivals }
    {
        let looped = sender_loopback(&self.bound, &self.lives, &self.questions, number, event)?;
        self.waits.loopbacks.room_for(&looped)?;
        self.note(number, event)?;
        self.waits.begin(looped);
        Ok(())
    }

    /// Tells all tables but that of arrivals of a record that asks for no echo.
    #[inline(always)]
    fn tell_other(&mut self, number: usize, event: &DecodedRecord) -> Result<(), AllocError>
        requires { is_some (sender_loopback event.now) ≡ false }
        ensures ok { OnOk result
            ((before : Past) → number ≡ length before → AreTold before self.old
            → IsSound before event.now → AreTold (event.now ∷ before) self.new) }
        ensures err { OnErr result
            ((before : Past) → number ≡ length before → AreTold before self.old
            → IsSound before event.now → AreTold before self.new) }
        ensures arrivals { self.new.arrivals ≡ self.old.arrivals }
    {
        let taken = call_taken_by(&self.questions, event);
        let heading = heading_taken(&self.calls, taken);
        self.waits
            .expect(&self.bound, &self.lives, &self.questions, number, event)?;
        self.note(number, event)?;
        self.waits.note(heading, number, event, taken);
        Ok(())
    }

    /// Tells all tables but that of arrivals of one record, which has this number in the log. Where memory is refused,
    /// they are of the records before.
    #[inline(always)]
    fn tell_others(&mut self, number: usize, event: &DecodedRecord) -> Result<(), AllocError>
        ensures ok { OnOk result
            ((before : Past) → number ≡ length before → AreTold before self.old
            → IsSound before event.now → AreTold (event.now ∷ before) self.new) }
        ensures err { OnErr result
            ((before : Past) → number ≡ length before → AreTold before self.old
            → IsSound before event.now → AreTold before self.new) }
        ensures arrivals { self.new.arrivals ≡ self.old.arrivals }
    {
        if asks_for_echo(event) {
            self.tell_loopback(number, event)
        } else {
            self.tell_other(number, event)
        }
    }

    /// Tells the tables of one record that brings imports or something back over a connection, and has this number in the
    /// log. Where memory is refused, they are of the records before.
    fn tell_arriving(
        &mut self,
        number: usize,
        connection: u32,
        event: &DecodedRecord,
    ) -> Result<(), AllocError>
        requires { arriving_over event.now ≡ Some connection }
        ensures ok { OnOk result
            ((before : Past) → AreWhole before number self.old → IsSound before event.now
            → AreWhole (event.now ∷ before) (number + 1) self.new) }
        ensures err { OnErr result
            ((before : Past) → AreWhole before number self.old → IsSound before event.now
            → AreWhole before number self.new) }
    {
        let alloc = self.lives.allocator();
        self.arrivals.put(alloc, number, connection, event)?;
        if self.tell_others(number, event).is_err() {
            self.arrivals.forget(number);
            return Err(AllocError);
        }
        Ok(())
    }

    /// Tells the tables of one record, which has this number in the log. Where memory is refused, they are of the records
    /// before.
    #[inline(always)]
    pub(crate) fn tell(&mut self, number: usize, event: &DecodedRecord) -> Result<(), AllocError>
        ensures ok { OnOk result
            ((before : Past) → AreWhole before number self.old → IsSound before event.now
            → AreWhole (event.now ∷ before) (number + 1) self.new) }
        ensures err { OnErr result
            ((before : Past) → AreWhole before number self.old → IsSound before event.now
            → AreWhole before number self.new) }
    {
        match arriving_over(event) {
            Some(connection) => self.tell_arriving(number, connection, event),
            None => self.tell_others(number, event),
        }
    }
}
