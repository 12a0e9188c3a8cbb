//! The table of received calls that are at the vat.

ghost use Rattle.std.specs.Prelude.{◌≡◌, ◌==◌, ℕ, None, Some, OnOk, IsTrue, Decides, nat_lt, ◌&&◌, if◌then◌else◌};
ghost use Rattle.std.specs.List.{list_any};
ghost use Rattle.std.specs.BTreeMap.Range.{entries_between};
ghost use Rattle.decoded_records.specs.Past.{is};
ghost use Rattle.number_tables.specs.Glue.QuestionTables.{question_at, opening_call_in};
ghost use Rattle.vat_view.specs.Glue.Queues.{queued_cmp, from_first, up_to, has_joined, Stay, OthersStay};
ghost use Rattle.vat_view.specs.Glue.LoopTables.{receipt_at, put_call, space_at, call_received_by, call_taken_by, heading_taken, held_by, SameSpace, AreQueued, HasLeft, Holding};

use crate::tables::turns::goal_key::{GoalKey, goal_key_of};
use crate::tables::waits::loopbacks::Unechoed;
use crate::tables::waits::queued_call::QueuedCall;
use decoded_records::{DecodedRecord, TableKey};
use number_tables::{Calls, Questions, opening_call};
use rpc_view::{Outcome, ReturnHead, RpcMessage};
use std::alloc::{AllocError, Global};
use std::collections::BTreeMap;

/// Where a call was received.
#[derive(Clone, Copy)]
pub(crate) struct Receipt {
    /// The connection.
    pub(crate) connection: u32,
    /// The number of its record in the log, counted from 0.
    pub(crate) number: usize,
}

/// The call that a record receives, which has this number in the log.
pub(crate) fn call_received_by(number: usize, event: &DecodedRecord) -> Option<(u64, Receipt)>
    ensures { result ≡ call_received_by number event.now }
{
    match event {
        DecodedRecord::Wire {
            sent: false,
            connection,
            call,
            message: RpcMessage::Call { .. },
            ..
        } => Some((
            *call,
            Receipt {
                connection: *connection,
                number,
            },
        )),
        _ => None,
    }
}

/// The call that a record takes from the vat, by the table of questions before it.
#[inline(always)]
pub(crate) fn call_taken_by(questions: &Questions, event: &DecodedRecord) -> Option<u64>
    ensures { result ≡ call_taken_by
        (λ q. opening_call_in (question_at questions.now q)) event.now }
{
    match event {
        DecodedRecord::Deliver { call, .. }
        | DecodedRecord::Fault { call }
        | DecodedRecord::Wire {
            sent: true,
            call,
            message: RpcMessage::Call { .. },
            ..
        } => Some(*call),
        DecodedRecord::Wire {
            sent: true,
            connection,
            message: RpcMessage::Return {
                head: ReturnHead { answer: number, .. },
                outcome: Outcome::Exception | Outcome::Canceled,
            },
            ..
        } => opening_call(
            questions,
            TableKey {
                connection: *connection,
                ours: false,
                number: *number,
            },
        ),
        _ => None,
    }
}

/// The heading under which the call that a record takes from the vat stands in the queue. It is asked before the table of
/// calls knows of the record, since that forgets the goal of a call that has left.
#[inline(always)]
pub(crate) fn heading_taken(calls: &Calls, taken: Option<u64>) -> GoalKey
    ensures { result ≡ heading_taken calls.now taken }
{
    match taken {
        Some(call) => goal_key_of(calls.goal(call)),
        None => goal_key_of(None),
    }
}

/// Whether a call was received on this connection before the record of this number.
fn came_before(receipt: Receipt, connection: u32, number: usize) -> bool
    ensures { result ≡ ((receipt.connection == connection) && nat_lt receipt.number number) }
{
    receipt.connection == connection && receipt.number < number
}

/// Where each received call that is at the vat was received, and the queue of these calls. An entry without a receipt
/// says nothing: it holds room. In the queue more may stand than the calls that are at the vat.
#[derive(Drop)]
pub(crate) struct WaitingCalls {
    entries: BTreeMap<u64, Option<Receipt>>,
    queue: BTreeMap<QueuedCall, ()>,
}

impl WaitingCalls {
    /// Before any record.
    pub(crate) fn new(alloc: Global) -> WaitingCalls
        ensures { (c : ℕ) → receipt_at result c ≡ None }
    {
        WaitingCalls {
            entries: BTreeMap::new(alloc),
            queue: BTreeMap::new(alloc),
        }
    }

    /// Whether this call holds up the echo of a loopback of this connection.
    fn holds(&self, calls: &Calls, connection: u32, looped: &Unechoed, call: u64) -> bool
        ensures { result ≡ held_by calls.now connection looped.now call (receipt_at self.now call) }
    {
        match self.entries.get(&call) {
            Some(Some(receipt)) => {
                came_before(*receipt, connection, looped.number)
                    && calls.goes_to(call, &looped.target)
            }
            _ => false,
        }
    }

    /// Whether a call holds up the echo of a loopback of this connection, of those in the queue that were received
    /// there before it and have the heading of its target.
    fn any_holds(&self, calls: &Calls, connection: u32, looped: &Unechoed) -> bool
        ensures { result
            ≡ list_any (λ e. held_by calls.now connection looped.now e.0.call
            (receipt_at self.now e.0.call))
            (entries_between queued_cmp (from_first connection looped.now.target)
            (up_to connection looped.now.target looped.now.number) self.now.queue.entries) }
    {
        let first = QueuedCall {
            connection,
            heading: goal_key_of(looped.target.as_ref()),
            number: 0,
            call: 0,
        };
        let end = QueuedCall {
            number: looped.number,
            ..first
        };
        self.queue.range(first..end).any(|(queued, _)| self.holds(
            calls,
            connection,
            looped,
            queued.call,
        ))
    }

    /// Whether a received call that is at the vat holds up the echo of a loopback of this connection: it was received
    /// there before the loopback, and goes where the loopback's target went.
    pub(crate) fn holds_up(&self, calls: &Calls, connection: u32, looped: &Unechoed) -> bool
        ensures { AreQueued self.now calls.now
            → Decides result (Holding self.now calls.now connection looped.now) }
    {
        self.any_holds(calls, connection, looped)
    }

    /// Makes room for the call that a record receives. What the table says stays as it is, where memory is refused
    /// too.
    pub(crate) fn room_for(&mut self, received: Option<(u64, Receipt)>) -> Result<(), AllocError>
        ensures same { (c : ℕ) → receipt_at self.new c ≡ receipt_at self.old c }
        ensures stay { Stay self.old self.new }
        ensures room { OnOk result (IsTrue (space_at self.new received)) }
    {
        let Some((call, _)) = received else {
            return Ok(());
        };
        if self.entries.contains_key(&call) {
            return Ok(());
        }
        self.entries.insert(call, None)?;
        Ok(())
    }

    /// This call joins the queue. What the table says of calls stays as it is, where memory is refused too.
    pub(crate) fn join(&mut self, queued: QueuedCall) -> Result<(), AllocError>
        ensures same { (c : ℕ) → receipt_at self.new c ≡ receipt_at self.old c }
        ensures stay { Stay self.old self.new }
        ensures space { SameSpace self.old self.new }
        ensures joins { OnOk result (IsTrue (has_joined self.new (Some queued))) }
    {
        self.queue.insert(queued, ())?;
        Ok(())
    }

    /// This call is received, for which there is room.
    pub(crate) fn begin(&mut self, received: Option<(u64, Receipt)>)
        requires { IsTrue (space_at self.old received) }
        ensures begun { (c : ℕ) → receipt_at self.new c
            ≡ put_call c received (receipt_at self.old c) }
        ensures stay { Stay self.old self.new }
    {
        let Some((call, receipt)) = received else {
            return;
        };
        if let Some(entry) = self.entries.get_mut(&call) {
            *entry = Some(receipt);
        }
    }

    /// This call leaves the vat, which stands under this heading in the queue.
    pub(crate) fn end(&mut self, heading: GoalKey, taken: Option<u64>)
        ensures gone { (c : ℕ) → receipt_at self.new c
            ≡ (if is c taken then None else receipt_at self.old c) }
        ensures stay { OthersStay taken self.old self.new }
        ensures left { HasLeft taken self.old heading self.new }
    {
        let Some(call) = taken else {
            return;
        };
        if let Some(Some(receipt)) = self.entries.remove(&call) {
            let queued = QueuedCall::new(call, receipt, heading);
            let _ = self.queue.remove(&queued);
        }
    }
}
