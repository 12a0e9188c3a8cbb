//! What is open at the end of one log, and what its records tell of that.

use crate::call_steps::{Does, step_of};
use left_open::{Open, open_at_end};
use rpc_view::RpcMessage;
use std::alloc::{AllocError, Global};
use std::collections::BTreeMap;
use vat_log::VatLog;
use vat_view::{DecodedRecord, TableKey};

/// What became last of a call at a vat: by which record, and as which question where it was sent on.
#[derive(Clone, Copy)]
pub(crate) struct Fate {
    pub(crate) at: usize,
    pub(crate) does: Does,
    pub(crate) question: Option<TableKey>,
}

/// An abort that a record sends or receives.
#[derive(Clone, Copy)]
pub(crate) struct Aborted {
    pub(crate) connection: u32,
    pub(crate) sent: bool,
    pub(crate) at: usize,
}

/// A log and what is open at its end; the questions without a Return that a peer asked of it, with their calls and records, and
/// what became of these calls, if they don't wait; of each connection the records that send a frame there, and how many receive
/// one; and its aborts.
#[derive(Drop)]
pub(crate) struct OpenLog<'a> {
    alloc: Global,
    pub(crate) log: &'a VatLog,
    pub(crate) list: Vec<Open>,
    asked: BTreeMap<TableKey, (u64, usize)>,
    fates: BTreeMap<u64, Option<Fate>>,
    sends: BTreeMap<u32, Vec<usize>>,
    received: BTreeMap<u32, usize>,
    pub(crate) aborts: Vec<Aborted>,
}

impl<'a> OpenLog<'a> {
    /// A log with this open at its end, of which nothing else is told yet.
    fn with(alloc: Global, log: &'a VatLog, list: Vec<Open>) -> OpenLog<'a> {
        OpenLog {
            alloc,
            log,
            list,
            asked: BTreeMap::new(alloc),
            fates: BTreeMap::new(alloc),
            sends: BTreeMap::new(alloc),
            received: BTreeMap::new(alloc),
            aborts: Vec::new(alloc),
        }
    }

    /// Adds the questions without a Return that a peer asked, and their calls.
    fn add_asked(&mut self) -> Result<(), AllocError> {
        for left in self.list.iter() {
            if let Open::Question { question, call, at } = left
                && !question.ours
            {
                self.asked.insert(*question, (*call, *at))?;
                self.fates.insert(*call, None)?;
            }
        }
        Ok(())
    }

    /// A frame passes on a connection by this record.
    fn pass(&mut self, connection: u32, sent: bool, at: usize) -> Result<(), AllocError> {
        if !sent {
            let count = self.received_on(connection).saturating_add(1);
            self.received.insert(connection, count)?;
        } else if let Some(sends) = self.sends.get_mut(&connection) {
            sends.push(at)?;
        } else {
            self.sends
                .insert(connection, Vec::from_slice(self.alloc, &[at])?)?;
        }
        Ok(())
    }

    /// Adds what this record tells.
    fn see(&mut self, event: &DecodedRecord, at: usize) -> Result<(), AllocError> {
        let question = event.question_opened();
        if let Some((call, does)) = step_of(event)
            && let Some(fate) = self.fates.get_mut(&call)
        {
            *fate = Some(Fate { at, does, question });
        }
        let DecodedRecord::Wire {
            sent,
            connection,
            message,
            ..
        } = event
        else {
            return Ok(());
        };
        if let RpcMessage::Abort = message {
            self.aborts.push(Aborted {
                connection: *connection,
                sent: *sent,
                at,
            })?;
        }
        self.pass(*connection, *sent, at)
    }

    /// Adds what its records tell.
    fn add(&mut self, events: &[DecodedRecord]) -> Result<(), AllocError> {
        self.add_asked()?;
        for (at, event) in events.iter().enumerate() {
            self.see(event, at)?;
        }
        Ok(())
    }

    /// What is open in a log that has these records. None where it isn't good.
    pub(crate) fn of(
        alloc: Global,
        log: &'a VatLog,
        events: &[DecodedRecord],
    ) -> Result<Option<OpenLog<'a>>, AllocError> {
        let Some(list) = open_at_end(alloc, events)? else {
            return Ok(None);
        };
        let mut open = OpenLog::with(alloc, log, list);
        match open.add(events) {
            Ok(()) => Ok(Some(open)),
            Err(AllocError) => Err(AllocError),
        }
    }

    /// The call and the record of the question of this number that a peer asked and that has no Return, if there is one.
    pub(crate) fn question_asked(&self, connection: u32, number: u32) -> Option<(u64, usize)> {
        let question = TableKey::of_sender(false, connection, number);
        self.asked.get(&question).copied()
    }

    /// Whether this call was received by a question that has no Return.
    pub(crate) fn was_asked(&self, call: u64) -> bool {
        self.fates.get(&call).is_some()
    }

    /// What became last of a call that was received by a question that has no Return. None where it waits.
    pub(crate) fn fate_of(&self, call: u64) -> Option<Fate> {
        *self.fates.get(&call)?
    }

    /// How many frames were received on a connection.
    pub(crate) fn received_on(&self, connection: u32) -> usize {
        self.received.get(&connection).copied().unwrap_or(0)
    }

    /// The records that send a frame on a connection.
    pub(crate) fn sends_on(&self, connection: u32) -> &[usize] {
        let sends = self.sends.get(&connection);
        sends.map(|sends| sends.as_slice()).unwrap_or(&[])
    }

    /// How many frames the records before this one send on a connection.
    pub(crate) fn sent_before(&self, connection: u32, at: usize) -> usize {
        match self.sends_on(connection).binary_search(&at) {
            Ok(place) | Err(place) => place,
        }
    }
}
