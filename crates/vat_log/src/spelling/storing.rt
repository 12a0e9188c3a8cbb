//! Writing whole logs.

ghost use Rattle.std.specs.Prelude.{◌≡◌, ◌<◌, ◌≤◌, length, map, IfErr, IfOk};
ghost use Rattle.std.specs.Int.{w32};
ghost use Rattle.vat_log.specs.Reading.{GivesInMemory};
ghost use Rattle.vat_log.specs.Fits.{record_limit, stored_log};
ghost use Rattle.vat_log.specs.Log.{written_version, later_version};
ghost use Rattle.vat_log.specs.Spelling.{count_width};

use crate::error::LogError;
use crate::log::{VatLog, log_with};
use crate::record::Record;
use crate::spelling::log_limits::MAX_RECORDS;
use crate::version::LogVersion;
use std::alloc::{AllocError, Global};

/// Lends each of these.
pub(crate) fn lend(alloc: Global, records: &[Record]) -> Result<Vec<&Record>, AllocError>
    ensures { IfOk result (λ lent. map (λ entry. entry.now) lent.items ≡ records.now) }
{
    let mut lent = Vec::with_capacity(alloc, records.len())?;
    for entry in records {
        lent.push(entry)?;
    }
    Ok(lent)
}

/// A second list of the records that are lent.
fn copied_records(alloc: Global, records: &[&Record]) -> Result<Vec<Record>, AllocError>
    ensures { IfOk result (λ copied. copied.items ≡ map (λ entry. entry.now) records.now) }
{
    let mut copied = Vec::with_capacity(alloc, records.len())?;
    for entry in records {
        copied.push(entry.copy()?)?;
    }
    Ok(copied)
}

/// The log of this vat with the records that are lent, in a version whose counts have 32 bits. The only error is that
/// memory ran out.
pub(crate) fn log_with_lent(
    alloc: Global,
    version: LogVersion,
    vat: u32,
    records: &[&Record],
) -> Result<VatLog, LogError>
    requires counts { count_width version ≡ w32 }
    requires few { length records.now ≤ record_limit }
    ensures ok { IfOk result (λ log.
        log ≡ record {
          version = version;
          vat = vat;
          records = map (λ entry. entry.now) records.now;
        }) }
    ensures err { IfErr result (λ e. e ≡ LogError.OutOfMemory) }
{
    let copies = copied_records(alloc, records)?;
    log_with(alloc, version, vat, copies).map_err(|_| LogError::OutOfMemory)
}

/// The log of this vat with these records, in a version whose counts have 32 bits.
#[tactic(auto, unfolding(crate::specs::Fits::record_limit))]
fn store(
    alloc: Global,
    version: LogVersion,
    vat: u32,
    records: &[Record],
) -> Result<VatLog, LogError>
    requires { count_width version ≡ w32 }
    ensures exact { GivesInMemory (λ log. log) result
        (stored_log (record { version = version; vat = vat; records = records.now })) }
    ensures too_many { record_limit < length records.now
        → IfErr result (λ e. e ≡ LogError.TooLong) }
{
    if records.len() > MAX_RECORDS {
        return Err(LogError::TooLong);
    }
    let lent = lend(alloc, records)?;
    log_with_lent(alloc, version, vat, &lent)
}

/// The same as [`store`], where the records lie apart from one another.
#[tactic(auto, unfolding(crate::specs::Fits::record_limit))]
fn store_lent(
    alloc: Global,
    version: LogVersion,
    vat: u32,
    records: &[&Record],
) -> Result<VatLog, LogError>
    requires { count_width version ≡ w32 }
    ensures exact { GivesInMemory (λ log. log) result
        (stored_log (record {
          version = version;
          vat = vat;
          records = map (λ entry. entry.now) records.now;
        })) }
    ensures too_many { record_limit < length records.now
        → IfErr result (λ e. e ≡ LogError.TooLong) }
{
    if MAX_RECORDS < records.len() {
        return Err(LogError::TooLong);
    }
    log_with_lent(alloc, version, vat, records)
}

/// The version 2 log of this vat with these records, in their order.
///
/// # Errors
///
/// `TooLong` where there are more than 4,294,967,295 records; or `OutOfMemory`, where a growth was refused.
pub fn write_log(alloc: Global, vat: u32, records: &[Record]) -> Result<VatLog, LogError>
    // Which log, or that there are too many records.
    ensures exact { GivesInMemory (λ log. log) result
        (stored_log (record { version = written_version; vat = vat; records = records.now })) }
    // Too many records are refused as such before memory is asked for.
    ensures too_many { record_limit < length records.now
        → IfErr result (λ e. e ≡ LogError.TooLong) }
{
    store(alloc, LogVersion::Two, vat, records)
}

/// The same as [`write_log`], where the records lie apart from one another.
///
/// # Errors
///
/// `TooLong` where there are more than 4,294,967,295 records; or `OutOfMemory`, where a growth was refused.
pub fn write_lent_log(alloc: Global, vat: u32, records: &[&Record]) -> Result<VatLog, LogError>
    // Which log, or that there are too many records.
    ensures exact { GivesInMemory (λ log. log) result
        (stored_log (record {
          version = written_version;
          vat = vat;
          records = map (λ entry. entry.now) records.now;
        })) }
    // Too many records are refused as such before memory is asked for.
    ensures too_many { record_limit < length records.now
        → IfErr result (λ e. e ≡ LogError.TooLong) }
{
    store_lent(alloc, LogVersion::Two, vat, records)
}

/// The version 3 log of this vat with these records, in their order: of a runtime that speaks the later edition of
/// rpc.capnp (docs/FORMATS.md).
///
/// # Errors
///
/// `TooLong` where there are more than 4,294,967,295 records; or `OutOfMemory`, where a growth was refused.
pub fn write_later_log(alloc: Global, vat: u32, records: &[Record]) -> Result<VatLog, LogError>
    // Which log, or that there are too many records.
    ensures exact { GivesInMemory (λ log. log) result
        (stored_log (record { version = later_version; vat = vat; records = records.now })) }
    // Too many records are refused as such before memory is asked for.
    ensures too_many { record_limit < length records.now
        → IfErr result (λ e. e ≡ LogError.TooLong) }
{
    store(alloc, LogVersion::Three, vat, records)
}

/// The same as [`write_later_log`], where the records lie apart from one another.
///
/// # Errors
///
/// `TooLong` where there are more than 4,294,967,295 records; or `OutOfMemory`, where a growth was refused.
pub fn write_lent_later_log(
    alloc: Global,
    vat: u32,
    records: &[&Record],
) -> Result<VatLog, LogError>
    // Which log, or that there are too many records.
    ensures exact { GivesInMemory (λ log. log) result
        (stored_log (record {
          version = later_version;
          vat = vat;
          records = map (λ entry. entry.now) records.now;
        })) }
    // Too many records are refused as such before memory is asked for.
    ensures too_many { record_limit < length records.now
        → IfErr result (λ e. e ≡ LogError.TooLong) }
{
    store_lent(alloc, LogVersion::Three, vat, records)
}
