//! The tables of what waits.

ghost use Rattle.std.specs.Prelude.{[], Some, OnOk, IsTrue};
ghost use Rattle.vat_view.specs.Glue.Tables.{bound_at};
ghost use Rattle.number_tables.specs.Glue.QuestionTables.{question_at};
ghost use Rattle.vat_view.specs.Glue.Asking.{targeted_by};
ghost use Rattle.vat_view.specs.Glue.Queues.{queued_at, has_joined};
ghost use Rattle.vat_view.specs.Glue.LoopTables.{room_at, space_at, call_received_by, queued_by, change_of_calls, change_of_loopbacks, SaysSame, IsChangedBy, AreWaiting};

use crate::lookups::headings::heading_of_target;
use crate::tables::references::BoundReferences;
use crate::tables::turns::goal_key::GoalKey;
use crate::tables::waits::loopbacks::{Loopbacks, Unechoed};
use crate::tables::waits::queued_call::QueuedCall;
use crate::tables::waits::waiting_calls::{Receipt, WaitingCalls, call_received_by};
use decoded_records::{DecodedRecord, TableKey, receiver_loopback};
use number_tables::{ExportsImports, Questions};
use std::alloc::{AllocError, Global};

/// What waits: loopbacks for their echo, and received calls at the vat.
#[derive(Drop)]
pub(crate) struct Embargoes {
    pub(crate) loopbacks: Loopbacks,
    pub(crate) inbox: WaitingCalls,
}

impl Embargoes {
    /// Before any record.
    pub(crate) fn new(alloc: Global) -> Embargoes
        ensures { AreWaiting [] result }
    {
        Embargoes {
            loopbacks: Loopbacks::new(alloc),
            inbox: WaitingCalls::new(alloc),
        }
    }

    /// Makes room for this call that a record receives, by the tables before it. What the tables say stays as it is,
    /// where memory is refused too.
    fn make_room(
        &mut self,
        bound: &BoundReferences,
        lives: &ExportsImports,
        questions: &Questions,
        received: (u64, Receipt),
        event: &DecodedRecord,
    ) -> Result<(), AllocError>
        ensures same { SaysSame self.old self.new }
        ensures space { OnOk result (IsTrue (space_at self.new.inbox (Some received))) }
        ensures joins { OnOk result
            (IsTrue (has_joined self.new.inbox (Some (queued_at received.0 received.1
            (targeted_by (bound_at bound.now) lives.now (question_at questions.now) event.now))))) }
    {
        self.inbox.room_for(Some(received))?;
        let (call, receipt) = received;
        self.inbox.join(QueuedCall {
            connection: receipt.connection,
            heading: heading_of_target(bound, lives, questions, event),
            number: receipt.number,
            call,
        })
    }

    /// Makes room for the call that a record receives, which has this number in the log, by the tables before it. What
    /// the tables say stays as it is, where memory is refused too.
    #[inline(always)]
    pub(crate) fn expect(
        &mut self,
        bound: &BoundReferences,
        lives: &ExportsImports,
        questions: &Questions,
        number: usize,
        event: &DecodedRecord,
    ) -> Result<(), AllocError>
        ensures same { SaysSame self.old self.new }
        ensures space { OnOk result
            (IsTrue (space_at self.new.inbox (call_received_by number event.now))) }
        ensures joins { OnOk result
            (IsTrue (has_joined self.new.inbox
            (queued_by (bound_at bound.now) lives.now
            (question_at questions.now) number event.now))) }
    {
        match call_received_by(number, event) {
            Some(received) => self.make_room(bound, lives, questions, received, event),
            None => Ok(()),
        }
    }

    /// A record passed that has this number in the log, asks for no echo and takes this call from the vat, and for which
    /// there is room. The call stands under this heading in the queue.
    #[inline(always)]
    pub(crate) fn note(
        &mut self,
        heading: GoalKey,
        number: usize,
        event: &DecodedRecord,
        taken: Option<u64>,
    )
        requires { IsTrue (space_at self.old.inbox (call_received_by number event.now)) }
        ensures { IsChangedBy (change_of_calls number event.now taken) self.old self.new }
    {
        self.loopbacks.end(receiver_loopback(event));
        self.inbox.begin(call_received_by(number, event));
        self.inbox.end(heading, taken);
    }

    /// A record passed that asks for the echo of this loopback, for which there is room.
    pub(crate) fn begin(&mut self, looped: Option<(TableKey, Unechoed)>)
        requires { IsTrue (room_at self.old.loopbacks looped) }
        ensures { IsChangedBy (change_of_loopbacks looped) self.old self.new }
    {
        self.loopbacks.begin(looped);
    }
}
