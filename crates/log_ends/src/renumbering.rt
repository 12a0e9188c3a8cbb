//! Logs with other numbers.

ghost use Rattle.std.specs.Prelude.{◌≡◌, ℕ, ◌+◌, ◌<◌, ◌≤◌, ◌^◌, ◌++◌, ◌∷◌, [], Some, length, slice_get, MatchBool, OnOk, IfOk};
ghost use Rattle.std.specs.BTreeMap.{get};
ghost use Rattle.vat_log.specs.Fits.{Fits};
ghost use Rattle.vat_log.specs.Log.{Log};
ghost use Rattle.vat_log.specs.Migrated.{migrated_version};
ghost use Rattle.vat_log.specs.declared.body.Body.{Body};
ghost use Rattle.log_ends.specs.Ends.{IsEnd};
ghost use Rattle.log_ends.specs.Joining.{IsPaired};
ghost use Rattle.log_ends.specs.Numbers.{new_number_of, PutsEnd, AreNumbers, HasVatAt, HasNoVat};
ghost use Rattle.log_ends.specs.Renumbering.{renumbered_body, renumbered_log, VatsAreApart, IsVatAt, IsRenumbered, AreRenumbered};
ghost use Rattle.log_ends.specs.declared.log_end.LogEnd.{LogEnd};

use crate::log_end::{EndPair, LogEnd};
use std::alloc::{AllocError, Global};
use std::collections::BTreeMap;
use vat_log::{Body, LogWriter, Record, VatLog};

/// An end has this number, if it is in the log at this place.
fn put_end(
    table: &mut BTreeMap<u32, u32>,
    place: usize,
    end: LogEnd,
    number: u32,
) -> Result<(), AllocError>
    ensures { OnOk result (PutsEnd place end number table.old table.new) }
{
    if end.log == place {
        table.insert(end.connection, number)?;
    }
    Ok(())
}

/// The new numbers of the connections in the log at this place: those of the pairs.
fn numbers_of(
    alloc: Global,
    pairs: &[EndPair],
    place: usize,
) -> Result<BTreeMap<u32, u32>, AllocError>
    requires { length pairs.now < 2 ^ 32 }
    ensures { IfOk result (AreNumbers pairs.now place (length pairs.now)) }
{
    let mut table = BTreeMap::new(alloc);
    for number in 0..pairs.len() {
        let pair = pairs[number];
        put_end(&mut table, place, pair.first, number as u32)?;
        put_end(&mut table, place, pair.second, number as u32)?;
    }
    Ok(table)
}

/// The new number of a connection.
fn number_of(table: &BTreeMap<u32, u32>, connection: u32) -> u32
    ensures { result ≡ new_number_of table.now connection }
{
    table.get(&connection).copied().unwrap_or(0)
}

/// The record that has this body.
fn record_of(body: Body) -> Record
    requires { Fits body }
    ensures { result ≡ body }
{
    match Record::new(body) {
        Ok(entry) => entry,
        Err(_) => unreachable!(),
    }
}

/// The same record, with the new number of its connection.
fn renumbered_record(table: &BTreeMap<u32, u32>, entry: &Record) -> Result<Record, AllocError>
    ensures { IfOk result (λ made. made ≡ renumbered_body (new_number_of table.now) entry.now) }
{
    match entry.body() {
        Body::Send {
            connection,
            call,
            references,
            frame,
        } => Ok(record_of(Body::Send {
            connection: number_of(table, *connection),
            call: *call,
            references: references.copy()?,
            frame: frame.clone()?,
        })),
        Body::Receive {
            connection,
            call,
            references,
            frame,
        } => Ok(record_of(Body::Receive {
            connection: number_of(table, *connection),
            call: *call,
            references: references.copy()?,
            frame: frame.clone()?,
        })),
        _ => entry.copy(),
    }
}

/// Puts the record of this number behind the others, with the new number of its connection.
fn push_record(
    writer: &mut LogWriter,
    table: &BTreeMap<u32, u32>,
    log: &VatLog,
    index: usize,
) -> Result<(), AllocError>
    requires { index < length log.now.records }
    ensures vat { writer.new.vat ≡ writer.old.vat }
    ensures version { writer.new.version ≡ writer.old.version }
    ensures ok { OnOk result ((body : Body) → slice_get log.now.records index ≡ Some body
        → writer.new.records ≡ writer.old.records
        ++ renumbered_body (new_number_of table.now) body ∷ []) }
{
    let Some(entry) = log.get(index) else {
        return Ok(());
    };
    match writer.push(renumbered_record(table, entry)?) {
        Ok(()) => Ok(()),
        Err(_) => Err(AllocError),
    }
}

/// A log of this vat, without records, in the version to which another log is migrated.
fn begun(alloc: Global, vat: u32, log: &VatLog) -> LogWriter
    ensures { result ≡ record {
      version = migrated_version log.now.version;
      vat = vat;
      records = [];
    } }
{
    if log.version() == 3 {
        LogWriter::later(alloc, vat)
    } else {
        LogWriter::new(alloc, vat)
    }
}

/// The same log, with the new numbers of its connections and this vat.
fn renumbered(
    alloc: Global,
    table: &BTreeMap<u32, u32>,
    vat: u32,
    log: &VatLog,
) -> Result<VatLog, AllocError>
    ensures { IfOk result (λ made. made ≡ renumbered_log (new_number_of table.now) vat log.now) }
{
    let mut writer = begun(alloc, vat, log);
    for index in 0..log.len() {
        push_record(&mut writer, table, log, index)?;
    }
    match writer.finish() {
        Ok(made) => Ok(made),
        Err(_) => Err(AllocError),
    }
}

/// Whether the log at this place has this vat.
fn has_vat_at(logs: &[VatLog], place: usize, vat: u32) -> bool
    requires { place < length logs.now }
    ensures { MatchBool result (HasVatAt logs.now place vat) (HasVatAt logs.now place vat → ⊥) }
{
    logs[place].vat() == vat
}

/// Whether a log from this place on has this vat.
fn has_vat(logs: &[VatLog], begin: usize, vat: u32) -> bool
    ensures { MatchBool result
        ((k : ℕ) × (begin ≤ k) × (k < length logs.now) × HasVatAt logs.now k vat)
        (HasNoVat logs.now vat begin (length logs.now)) }
{
    for place in begin..logs.len() {
        if has_vat_at(logs, place, vat) {
            return true;
        }
    }
    false
}

/// Whether no two logs have the same vat.
fn are_apart(logs: &[VatLog]) -> bool
    ensures { MatchBool result (VatsAreApart logs.now) (VatsAreApart logs.now → ⊥) }
{
    for place in 0..logs.len() {
        let vat = logs[place].vat();
        if has_vat(logs, place + 1, vat) {
            return false;
        }
    }
    true
}

/// The new vat of the log at this place, where it is known whether no two logs have the same.
fn vat_at(logs: &[VatLog], place: usize, stays: bool) -> u32
    requires place { place < length logs.now }
    requires few { length logs.now < 2 ^ 32 }
    requires stays { MatchBool stays (VatsAreApart logs.now) (VatsAreApart logs.now → ⊥) }
    ensures { IsVatAt logs.now place result }
{
    if stays {
        return logs[place].vat();
    }
    place as u32 + 1
}

/// The log at this place with other numbers.
fn renumbered_at(
    alloc: Global,
    logs: &[VatLog],
    pairs: &[EndPair],
    place: usize,
    stays: bool,
) -> Result<VatLog, AllocError>
    requires place { place < length logs.now }
    requires few_logs { length logs.now < 2 ^ 32 }
    requires few_pairs { length pairs.now < 2 ^ 32 }
    requires stays { MatchBool stays (VatsAreApart logs.now) (VatsAreApart logs.now → ⊥) }
    requires paired { (end : LogEnd) → IsEnd logs.now end → IsPaired pairs.now end }
    ensures { IfOk result (λ made. (old : Log) → slice_get logs.now place ≡ Some old
        → IsRenumbered logs.now pairs.now place old made) }
{
    let table = numbers_of(alloc, pairs, place)?;
    let vat = vat_at(logs, place, stays);
    let made = renumbered(alloc, &table, vat, &logs[place])?;
    Ok(made)
}

/// The new vat of the log at this place: its own, unless two logs have the same; then it is the log's place counted from 1.
pub fn vat_of(logs: &[VatLog], place: usize) -> u32
    requires place { place < length logs.now }
    requires few { length logs.now < 2 ^ 32 }
    ensures { IsVatAt logs.now place result }
{
    let stays = are_apart(logs);
    vat_at(logs, place, stays)
}

/// The logs with other numbers, in their order. Each connection has the number of the pair that has this end of it, counted
/// from 0. The vats stay, unless two are the same: then they are 1, 2, .. in the order of the logs. Everything else stays; a
/// log of version 1 becomes one of version 2.
///
/// # Errors
///
/// Out of memory.
pub fn renumbered_logs(
    alloc: Global,
    logs: &[VatLog],
    pairs: &[EndPair],
) -> Result<Vec<VatLog>, AllocError>
    requires paired { (end : LogEnd) → IsEnd logs.now end → IsPaired pairs.now end }
    requires few_logs { length logs.now < 2 ^ 32 }
    requires few_pairs { length pairs.now < 2 ^ 32 }
    ensures { IfOk result (λ made. AreRenumbered logs.now pairs.now made.items) }
{
    let stays = are_apart(logs);
    let mut made = Vec::with_capacity(alloc, logs.len())?;
    for place in 0..logs.len() {
        made.push(renumbered_at(alloc, logs, pairs, place, stays)?)?;
    }
    Ok(made)
}
