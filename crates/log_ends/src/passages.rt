//! What passed at each end.

ghost use Rattle.std.specs.Prelude.{◌≡◌, ℕ, ◌↔◌, ◌+◌, ◌<◌, ◌∷◌, ◌++◌, [], List, None, Option, length, map, take, cond, IsTrue, IfOk, OnOk, vec_len, nat_eq};
ghost use Rattle.std.specs.List.{filter_map};
ghost use Rattle.std.specs.Ordering.{nat_cmp};
ghost use Rattle.std.specs.BTreeMap.{get, IsOrdered};
ghost use Rattle.vat_log.specs.declared.body.Body.{Body};
ghost use Rattle.link_check.specs.Prefix.{frames_sent, frames_received};
ghost use Rattle.vat_log.specs.Passages.{frame_sent, frame_received};
ghost use Rattle.log_ends.specs.Ends.{Fits, AreAlike};
ghost use Rattle.log_ends.specs.Glue.{sequence_number, IsSound, Keeps, IsPassed, HasPassed, one_more, end_of_passage, IsOfLogs, end_at};

use crate::log_end::LogEnd;
use crate::sequences::{Sequences, Trace};
use bytes::Bytes;
use std::alloc::{AllocError, Global};
use std::collections::BTreeMap;
use vat_log::{Body, VatLog};

/// What passed at one end, in both directions.
#[derive(Drop)]
pub(crate) struct PassedFrame {
    pub(crate) sent: Trace,
    pub(crate) received: Trace,
}

/// An end, with what passed there.
#[derive(Drop)]
pub(crate) struct EndRow {
    pub(crate) end: LogEnd,
    pub(crate) passed: PassedFrame,
}

/// Logs, and all ends in them.
#[derive(Drop)]
pub(crate) struct Rows<'a> {
    pub(crate) logs: &'a [VatLog],
    pub(crate) rows: Vec<EndRow>,
}

/// What passed on a connection so far; it leaves the table.
fn taken(alloc: Global, table: &mut BTreeMap<u32, PassedFrame>, connection: u32) -> PassedFrame
    ensures passed { (numbers : List (List ℕ) → Option ℕ) (sent received : ℕ → List (List ℕ))
        → HasPassed numbers table.old sent received
        → IsPassed numbers result (sent connection) (received connection) }
    ensures others { (q : ℕ) → get nat_cmp table.new q
        ≡ cond (nat_eq connection q) None (get nat_cmp table.old q) }
{
    match table.remove(&connection) {
        Some(passed) => passed,
        None => PassedFrame {
            sent: Trace::new(alloc),
            received: Trace::new(alloc),
        },
    }
}

/// One more frame was sent on a connection.
fn push_sent(
    alloc: Global,
    table: &mut BTreeMap<u32, PassedFrame>,
    sequences: &mut Sequences,
    connection: u32,
    frame: &Bytes,
) -> Result<(), AllocError>
    requires { IsSound sequences.old }
    ensures sound { IsSound sequences.new }
    ensures keeps { Keeps sequences.old sequences.new }
    ensures ok { OnOk result ((sent received : ℕ → List (List ℕ))
        → HasPassed (sequence_number sequences.old) table.old sent received
        → HasPassed (sequence_number sequences.new) table.new (one_more sent connection frame.now) received) }
{
    let mut passed = taken(alloc, table, connection);
    passed.sent.push(sequences, frame)?;
    table.insert(connection, passed)?;
    Ok(())
}

/// One more frame was received on a connection.
fn push_received(
    alloc: Global,
    table: &mut BTreeMap<u32, PassedFrame>,
    sequences: &mut Sequences,
    connection: u32,
    frame: &Bytes,
) -> Result<(), AllocError>
    requires { IsSound sequences.old }
    ensures sound { IsSound sequences.new }
    ensures keeps { Keeps sequences.old sequences.new }
    ensures ok { OnOk result ((sent received : ℕ → List (List ℕ))
        → HasPassed (sequence_number sequences.old) table.old sent received
        → HasPassed (sequence_number sequences.new) table.new sent (one_more received connection frame.now)) }
{
    let mut passed = taken(alloc, table, connection);
    passed.received.push(sequences, frame)?;
    table.insert(connection, passed)?;
    Ok(())
}

/// One more record.
fn push_body(
    alloc: Global,
    table: &mut BTreeMap<u32, PassedFrame>,
    sequences: &mut Sequences,
    body: &Body,
) -> Result<(), AllocError>
    requires { IsSound sequences.old }
    ensures sound { IsSound sequences.new }
    ensures keeps { Keeps sequences.old sequences.new }
    ensures ok { OnOk result ((records : List Body)
        → HasPassed (sequence_number sequences.old) table.old (λ q. filter_map (frame_sent q) records)
        (λ q. filter_map (frame_received q) records)
        → HasPassed (sequence_number sequences.new) table.new
        (λ q. filter_map (frame_sent q) (records ++ body.now ∷ []))
        (λ q. filter_map (frame_received q) (records ++ body.now ∷ []))) }
{
    match body {
        Body::Send {
            connection,
            frame,
            ..
        } => push_sent(alloc, table, sequences, *connection, frame),
        Body::Receive {
            connection,
            frame,
            ..
        } => push_received(alloc, table, sequences, *connection, frame),
        _ => Ok(()),
    }
}

/// The record of this number, after those before it.
fn push_record(
    alloc: Global,
    table: &mut BTreeMap<u32, PassedFrame>,
    sequences: &mut Sequences,
    log: &VatLog,
    index: usize,
) -> Result<(), AllocError>
    requires sound { IsSound sequences.old }
    requires within { index < length log.now.records }
    ensures sound { IsSound sequences.new }
    ensures keeps { Keeps sequences.old sequences.new }
    ensures ok { OnOk result (HasPassed (sequence_number sequences.old) table.old
        (λ q. filter_map (frame_sent q) (take index log.now.records))
        (λ q. filter_map (frame_received q) (take index log.now.records))
        → HasPassed (sequence_number sequences.new) table.new
        (λ q. filter_map (frame_sent q) (take (index + 1) log.now.records))
        (λ q. filter_map (frame_received q) (take (index + 1) log.now.records))) }
{
    match log.get(index) {
        Some(entry) => push_body(alloc, table, sequences, entry.body()),
        None => Ok(()),
    }
}

/// What passed on each connection of a log, by the connections' numbers.
fn table_of(
    alloc: Global,
    sequences: &mut Sequences,
    log: &VatLog,
) -> Result<BTreeMap<u32, PassedFrame>, AllocError>
    requires { IsSound sequences.old }
    ensures sound { IsSound sequences.new }
    ensures keeps { Keeps sequences.old sequences.new }
    ensures ok { IfOk result (λ table. HasPassed (sequence_number sequences.new) table
        (λ q. frames_sent q log.now) (λ q. frames_received q log.now)) }
{
    let mut table = BTreeMap::new(alloc);
    for index in 0..log.len() {
        push_record(alloc, &mut table, sequences, log, index)?;
    }
    Ok(table)
}

/// Puts the ends of the log at this place behind the others, in the order of the connections' numbers.
fn push_table(
    rows: &mut Vec<EndRow>,
    place: usize,
    table: BTreeMap<u32, PassedFrame>,
) -> Result<(), AllocError>
    ensures ok { OnOk result
        (rows.new.items ≡ rows.old.items ++ map (end_of_passage place) table.entries) }
    ensures ordered { IsOrdered nat_cmp table }
{
    rows.reserve(table.len())?;
    let mut table = table;
    while let Some((connection, passed)) = table.pop_first() {
        let end = LogEnd {
            log: place,
            connection,
        };
        rows.push(EndRow { end, passed })?;
    }
    Ok(())
}

/// All ends in these logs, by the order of the logs, and then by the connections' numbers.
pub(crate) fn rows_of(alloc: Global, logs: &[VatLog]) -> Result<Rows<'_>, AllocError>
    ensures { IfOk result (λ rows. IsOfLogs rows × (rows.logs.now ≡ logs.now)) }
{
    let mut sequences = Sequences::new(alloc);
    let mut rows = Vec::new(alloc);
    for place in 0..logs.len() {
        let table = table_of(alloc, &mut sequences, &logs[place])?;
        push_table(&mut rows, place, table)?;
    }
    Ok(Rows { logs, rows })
}

impl Rows<'_> {
    /// How many ends there are.
    pub(crate) fn len(&self) -> usize
        ensures { result ≡ vec_len self.now.rows }
    {
        self.rows.len()
    }

    /// The end at this place.
    pub(crate) fn end(&self, place: usize) -> LogEnd
        requires { place < vec_len self.now.rows }
        ensures { result ≡ end_at self.now place }
    {
        self.rows[place].end
    }

    /// Whether the ends at these places fit.
    pub(crate) fn fit(&self, place: usize, other: usize) -> bool
        requires rows { IsOfLogs self.now }
        requires place { place < vec_len self.now.rows }
        requires other { other < vec_len self.now.rows }
        ensures { IsTrue result
            ↔ Fits self.now.logs.now (end_at self.now place) (end_at self.now other) }
    {
        let one = &self.rows[place];
        let two = &self.rows[other];
        if one.end.log == two.end.log {
            return false;
        }
        if !one.passed.received.is_prefix_of(&two.passed.sent) {
            return false;
        }
        if !two.passed.received.is_prefix_of(&one.passed.sent) {
            return false;
        }
        if !one.passed.received.is_empty() {
            return true;
        }
        !two.passed.received.is_empty()
    }

    /// Whether the ends at these places are alike.
    pub(crate) fn are_alike(&self, place: usize, other: usize) -> bool
        requires rows { IsOfLogs self.now }
        requires place { place < vec_len self.now.rows }
        requires other { other < vec_len self.now.rows }
        ensures { IsTrue result
            ↔ AreAlike self.now.logs.now (end_at self.now place) (end_at self.now other) }
    {
        let one = &self.rows[place];
        let two = &self.rows[other];
        if !one.passed.sent.is_same(&two.passed.sent) {
            return false;
        }
        one.passed.received.is_same(&two.passed.received)
    }
}
