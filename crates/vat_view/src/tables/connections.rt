//! The table of connections.

ghost use Rattle.std.specs.Prelude.{◌≡◌, ◌||◌, ℕ, None, Some, false, OnOk, IsTrue};
ghost use Rattle.std.specs.Option.{option_or};
ghost use Rattle.decoded_records.specs.Past.{is};
ghost use Rattle.vat_view.specs.Connections.{aborted_by, abort_sent_on};
ghost use Rattle.vat_view.specs.Glue.ConnectionTables.{asked_at, marked_at, aborted_at, aborted_here_at, call_sent_on, on_for, has_asked, has_room};

use decoded_records::DecodedRecord;
use rising_table::RisingTable;
use rpc_view::RpcMessage;
use std::alloc::{AllocError, Global};
use std::collections::BTreeMap;

/// The connection on which this vat asked its question for each call, the connections that were aborted, and those on
/// which this vat sent an abort. A call's entry without a connection says nothing, and neither does a connection's
/// false: they hold room.
#[derive(Drop)]
pub(crate) struct Connections {
    asked: RisingTable<Option<u32>>,
    aborted: BTreeMap<u32, bool>,
    aborted_here: BTreeMap<u32, bool>,
}

/// The call for which a record asks a question of this vat's, with the connection.
pub(crate) fn call_sent_on(event: &DecodedRecord) -> Option<(u64, u32)>
    ensures { result ≡ call_sent_on event.now }
{
    match event {
        DecodedRecord::Wire {
            sent: true,
            connection,
            call,
            message: RpcMessage::Bootstrap { .. } | RpcMessage::Call { .. },
            ..
        } => Some((*call, *connection)),
        _ => None,
    }
}

/// The connection that a record aborts.
pub(crate) fn connection_aborted(event: &DecodedRecord) -> Option<u32>
    ensures { result ≡ aborted_by event.now }
{
    match event {
        DecodedRecord::Wire {
            connection,
            message: RpcMessage::Abort,
            ..
        } => Some(*connection),
        _ => None,
    }
}

/// The connection on which a record sends an abort.
pub(crate) fn abort_sent_on(event: &DecodedRecord) -> Option<u32>
    ensures { result ≡ abort_sent_on event.now }
{
    match event {
        DecodedRecord::Wire { sent: true, .. } => connection_aborted(event),
        _ => None,
    }
}

/// Whether a connection is marked.
fn is_marked(marks: &BTreeMap<u32, bool>, connection: u32) -> bool
    ensures { result ≡ marked_at marks.now connection }
{
    match marks.get(&connection) {
        Some(marked) => *marked,
        None => false,
    }
}

/// Makes room to mark a connection. No mark changes, where memory is refused too.
fn make_room(marks: &mut BTreeMap<u32, bool>, connection: Option<u32>) -> Result<(), AllocError>
    ensures same { (k : ℕ) → marked_at marks.new k ≡ marked_at marks.old k }
    ensures room { OnOk result (IsTrue (has_room marks.new connection)) }
{
    let Some(connection) = connection else {
        return Ok(());
    };
    if marks.contains_key(&connection) {
        return Ok(());
    }
    marks.insert(connection, false)?;
    Ok(())
}

/// Marks a connection, for which there is room.
fn mark(marks: &mut BTreeMap<u32, bool>, connection: Option<u32>)
    requires { IsTrue (has_room marks.old connection) }
    ensures { (k : ℕ) → marked_at marks.new k ≡ (is k connection || marked_at marks.old k) }
{
    let Some(connection) = connection else {
        return;
    };
    if let Some(marked) = marks.get_mut(&connection) {
        *marked = true;
    }
}

impl Connections {
    /// Before any call is asked and any connection aborted.
    pub(crate) fn new(alloc: Global) -> Connections
        ensures asked { (c : ℕ) → asked_at result c ≡ None }
        ensures aborted { (k : ℕ) → aborted_at result k ≡ false }
        ensures aborted_here { (k : ℕ) → aborted_here_at result k ≡ false }
    {
        Connections {
            asked: RisingTable::new(alloc),
            aborted: BTreeMap::new(alloc),
            aborted_here: BTreeMap::new(alloc),
        }
    }

    /// The connection on which this vat asked its question for a call.
    pub(crate) fn asked_on(&self, call: u64) -> Option<u32>
        ensures { result ≡ asked_at self.now call }
    {
        match self.asked.get(call) {
            Some(connection) => *connection,
            None => None,
        }
    }

    /// Whether a connection was aborted.
    pub(crate) fn is_aborted(&self, connection: u32) -> bool
        ensures { result ≡ aborted_at self.now connection }
    {
        is_marked(&self.aborted, connection)
    }

    /// Whether this vat sent an abort on a connection.
    pub(crate) fn is_aborted_here(&self, connection: u32) -> bool
        ensures { result ≡ aborted_here_at self.now connection }
    {
        is_marked(&self.aborted_here, connection)
    }

    /// Makes room for a call that is asked. What the table says stays as it is, where memory is refused too.
    fn room_for_asked(&mut self, asked: Option<(u64, u32)>) -> Result<(), AllocError>
        ensures same { (c : ℕ) → asked_at self.new c ≡ asked_at self.old c }
        ensures aborted { self.new.aborted ≡ self.old.aborted }
        ensures aborted_here { self.new.aborted_here ≡ self.old.aborted_here }
        ensures room { OnOk result (IsTrue (has_asked self.new asked)) }
    {
        let Some((call, _)) = asked else {
            return Ok(());
        };
        if self.asked.has(call) {
            return Ok(());
        }
        self.asked.put(call, None)
    }

    /// Makes room for what a message asks or aborts. What the table says stays as it is, where memory is refused too.
    fn grow_for_message(&mut self, event: &DecodedRecord) -> Result<(), AllocError>
        ensures asked { (c : ℕ) → asked_at self.new c ≡ asked_at self.old c }
        ensures aborted { (k : ℕ) → aborted_at self.new k ≡ aborted_at self.old k }
        ensures aborted_here { (k : ℕ) → aborted_here_at self.new k ≡ aborted_here_at self.old k }
        ensures room_asked { OnOk result (IsTrue (has_asked self.new (call_sent_on event.now))) }
        ensures room_aborted { OnOk result
            (IsTrue (has_room self.new.aborted (aborted_by event.now))) }
        ensures room_aborted_here { OnOk result
            (IsTrue (has_room self.new.aborted_here (abort_sent_on event.now))) }
    {
        self.room_for_asked(call_sent_on(event))?;
        make_room(&mut self.aborted, connection_aborted(event))?;
        make_room(&mut self.aborted_here, abort_sent_on(event))
    }

    /// Makes room for what a record asks or aborts. What the table says stays as it is, where memory is refused too.
    #[inline(always)]
    pub(crate) fn grow_for(&mut self, event: &DecodedRecord) -> Result<(), AllocError>
        ensures asked { (c : ℕ) → asked_at self.new c ≡ asked_at self.old c }
        ensures aborted { (k : ℕ) → aborted_at self.new k ≡ aborted_at self.old k }
        ensures aborted_here { (k : ℕ) → aborted_here_at self.new k ≡ aborted_here_at self.old k }
        ensures room_asked { OnOk result (IsTrue (has_asked self.new (call_sent_on event.now))) }
        ensures room_aborted { OnOk result
            (IsTrue (has_room self.new.aborted (aborted_by event.now))) }
        ensures room_aborted_here { OnOk result
            (IsTrue (has_room self.new.aborted_here (abort_sent_on event.now))) }
    {
        match event {
            DecodedRecord::Wire {
                sent: true,
                message: RpcMessage::Bootstrap { .. } | RpcMessage::Call { .. },
                ..
            }
            | DecodedRecord::Wire {
                message: RpcMessage::Abort,
                ..
            } => self.grow_for_message(event),
            _ => Ok(()),
        }
    }

    /// A message passed, for which there is room.
    fn note_message(&mut self, event: &DecodedRecord)
        requires asked { IsTrue (has_asked self.old (call_sent_on event.now)) }
        requires aborted { IsTrue (has_room self.old.aborted (aborted_by event.now)) }
        requires aborted_here { IsTrue
            (has_room self.old.aborted_here (abort_sent_on event.now)) }
        ensures asked { (c : ℕ) → asked_at self.new c
            ≡ option_or (on_for c (call_sent_on event.now)) (asked_at self.old c) }
        ensures aborted { (k : ℕ) → aborted_at self.new k
            ≡ (is k (aborted_by event.now) || aborted_at self.old k) }
        ensures aborted_here { (k : ℕ) → aborted_here_at self.new k
            ≡ (is k (abort_sent_on event.now) || aborted_here_at self.old k) }
    {
        self.note_asked(call_sent_on(event));
        mark(&mut self.aborted, connection_aborted(event));
        mark(&mut self.aborted_here, abort_sent_on(event));
    }

    /// A record passed, for which there is room.
    #[inline(always)]
    pub(crate) fn note_event(&mut self, event: &DecodedRecord)
        requires asked { IsTrue (has_asked self.old (call_sent_on event.now)) }
        requires aborted { IsTrue (has_room self.old.aborted (aborted_by event.now)) }
        requires aborted_here { IsTrue
            (has_room self.old.aborted_here (abort_sent_on event.now)) }
        ensures asked { (c : ℕ) → asked_at self.new c
            ≡ option_or (on_for c (call_sent_on event.now)) (asked_at self.old c) }
        ensures aborted { (k : ℕ) → aborted_at self.new k
            ≡ (is k (aborted_by event.now) || aborted_at self.old k) }
        ensures aborted_here { (k : ℕ) → aborted_here_at self.new k
            ≡ (is k (abort_sent_on event.now) || aborted_here_at self.old k) }
    {
        match event {
            DecodedRecord::Wire {
                sent: true,
                message: RpcMessage::Bootstrap { .. } | RpcMessage::Call { .. },
                ..
            }
            | DecodedRecord::Wire {
                message: RpcMessage::Abort,
                ..
            } => self.note_message(event),
            _ => {}
        }
    }

    /// A call is asked, for which there is room.
    fn note_asked(&mut self, asked: Option<(u64, u32)>)
        requires { IsTrue (has_asked self.old asked) }
        ensures same { (c : ℕ) → asked_at self.new c
            ≡ option_or (on_for c asked) (asked_at self.old c) }
        ensures aborted { self.new.aborted ≡ self.old.aborted }
        ensures aborted_here { self.new.aborted_here ≡ self.old.aborted_here }
    {
        let Some((call, connection)) = asked else {
            return;
        };
        let _ = self.asked.replace(call, Some(connection));
    }
}
