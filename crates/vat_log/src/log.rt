//! Logs.

ghost use Rattle.std.specs.Prelude.{◌≡◌, ◌≤◌, Ok, length, slice_get, All, Err, IfErr, IfOk, MatchOption};
ghost use Rattle.std.specs.Option.{option_copied};
ghost use Rattle.std.specs.Int.{w32};
ghost use Rattle.vat_log.specs.Reading.{Fails, GivesInMemory, version_at, header_of, log_of};
ghost use Rattle.vat_log.specs.Fits.{record_limit, Fits, IsWide, LogFits};
ghost use Rattle.vat_log.specs.Ends.{AreEnds};
ghost use Rattle.vat_log.specs.Log.{Log, version_number};
ghost use Rattle.vat_log.specs.Migrated.{migrated};
ghost use Rattle.vat_log.specs.Reader.{EndsBy};
ghost use Rattle.vat_log.specs.Runs.{BeginsWith, IsLongestRun, with_records};
ghost use Rattle.vat_log.specs.Spelling.{count_width, log_bytes};

use crate::error::LogError;
use crate::header::LogHeader;
use crate::reader::LogReader;
use crate::record::Record;
use crate::spelled_log::SpelledLog;
use crate::spelling::body_writing::written_log;
use crate::spelling::storing::{lend, log_with_lent};
use crate::version::LogVersion;
use bytes::Bytes;
use std::alloc::{AllocError, Global};
use std::marker::Model;

/// The log of one vat, and the bytes that spell it (docs/FORMATS.md).
#[derive(Debug)]
pub struct VatLog {
    bytes: Bytes,
    version: LogVersion,
    vat: u32,
    records: Vec<Record>,
}

impl Drop for VatLog {
    fn drop(self) {
        let Self {
            bytes: _,
            version: _,
            vat: _,
            records: _,
        } = self;
    }
}

impl Model for VatLog {
    ghost use Rattle.vat_log.specs.Log.{Log};

    ghost Value = { Log };

    ghost use Rattle.vat_log.specs.Parsed.{IsParsed};

    ghost view = { λ log. record { version = log.version; vat = log.vat; records = log.records.items } };

    ghost invariant = { λ log. IsParsed log.bytes
        (record { version = log.version; vat = log.vat; records = log.records.items }) };
}

impl VatLog {
    ghost use Rattle.vat_log.specs.Parsed.{IsParsed};

    /// The version of the format in which the log stands: 1, 2 or 3.
    pub fn version(&self) -> u32
        ensures value { result ≡ version_number self.now.version }
    {
        self.version.number()
    }

    /// The vat whose log this is.
    pub fn vat(&self) -> u32
        ensures { result ≡ self.now.vat }
    {
        self.vat
    }

    /// What stands in front of its records.
    pub fn header(&self) -> LogHeader
        ensures version { result.version ≡ self.now.version }
        ensures vat { result.vat ≡ self.now.vat }
    {
        LogHeader {
            version: self.version,
            vat: self.vat,
        }
    }

    /// How many records there are, 4,294,967,295 at most.
    pub fn len(&self) -> usize
        ensures value { result ≡ length self.now.records }
        ensures bound { result ≤ 4294967295 }
    {
        self.records.len()
    }

    /// The record of this number, counted from 0.
    pub fn get(&self, index: usize) -> Option<&Record>
        ensures { option_copied result ≡ slice_get self.now.records index }
    {
        self.records.get(index)
    }

    /// The bytes of the log: its one spelling in its version, from which it was parsed or in which it was written.
    pub fn bytes(&self) -> &Bytes
        ensures spelled { result.now ≡ log_bytes self.now }
        ensures parsed { IsParsed result.now self.now }
    {
        &self.bytes
    }
}

/// The records that are left, up to the end or to the first fault, which is given beside them. The only error is that
/// memory ran out.
fn records_left(
    alloc: Global,
    reader: &mut LogReader,
) -> Result<(Vec<Record>, Option<LogError>), AllocError>
    ensures bytes { reader.new.bytes ≡ reader.old.bytes }
    ensures begun { BeginsWith reader.new.bytes reader.new.log }
    ensures records { IfOk result (λ left.
        reader.new.log ≡ with_records left.0.items reader.old.log) }
    ensures ended { IfOk result (λ left. EndsBy left.1 reader.new) }
{
    let mut records = Vec::new(alloc);
    loop {
        match reader.next(alloc) {
            Ok(Some(entry)) => records.push(entry)?,
            Ok(None) => return Ok((records, None)),
            Err(LogError::OutOfMemory) => return Err(AllocError),
            Err(fault) => return Ok((records, Some(fault))),
        }
    }
}

/// The log that these bytes spell: the magic `VATLOG01`, `VATLOG02` or `VATLOG03`, then the vat's number of 4 bytes, then
/// the records one after another (docs/FORMATS.md).
///
/// # Errors
///
/// The first fault from the left: `BadMagic`, `Short`, `BadKind` and `ZeroNumber` with the offset of the field,
/// `TooLong` at a record past 4,294,967,295, at a count above 1,048,576, or at a frame above 67,108,864 bytes; or `OutOfMemory`,
/// where a growth was refused.
pub fn parse_log(alloc: Global, bytes: Bytes) -> Result<VatLog, LogError>
    // Which log, or which fault.
    ensures exact { GivesInMemory (λ log. log) result (log_of bytes) }
    // What is read is spelled so.
    ensures found { IfOk result (λ log. LogFits record_limit log × (bytes ≡ log_bytes log)) }
    // What is spelled so is read, unless memory runs out.
    ensures only { (log : Log) → LogFits record_limit log → bytes ≡ log_bytes log
        → GivesInMemory (λ read. read) result (Ok log) }
    // Another magic is refused as such before memory is asked for.
    ensures early { version_at bytes ≡ Err LogError.BadMagic
        → IfErr result (λ e. e ≡ LogError.BadMagic) }
{
    let mut reader = LogReader::new(bytes)?;
    let (records, fault) = records_left(alloc, &mut reader)?;
    if let Some(fault) = fault {
        return Err(fault);
    }
    Ok(VatLog {
        version: reader.log_version(),
        vat: reader.vat(),
        bytes: reader.into_bytes(),
        records,
    })
}

/// Reads the records that are left, up to the end or to the first fault, which is given. None is kept. The only error is
/// that memory ran out.
fn read_through(alloc: Global, reader: &mut LogReader) -> Result<Option<LogError>, AllocError>
    ensures bytes { reader.new.bytes ≡ reader.old.bytes }
    ensures begun { BeginsWith reader.new.bytes reader.new.log }
    ensures ended { IfOk result (λ fault. EndsBy fault reader.new) }
{
    loop {
        match reader.next(alloc) {
            Ok(Some(_)) => {}
            Ok(None) => return Ok(None),
            Err(LogError::OutOfMemory) => return Err(AllocError),
            Err(fault) => return Ok(Some(fault)),
        }
    }
}

/// What is whole of a log: its longest run of records from the first on, and why no more of it is.
#[derive(Debug, Drop)]
pub struct Salvaged {
    /// The log of the run, in the version in which it was read.
    pub log: SpelledLog,
    /// The first fault of the bytes, where reading them all stops; none where the log is whole.
    pub fault: Option<LogError>,
}

/// The log of the longest run of whole records with which these bytes begin: of a log that was cut as it was written,
/// say. Its bytes are a part of these, and a whole log stays as it is.
///
/// # Errors
///
/// The fault of the header, by which no log begins: `BadMagic`, or `Short(8)` where the vat is cut; or `OutOfMemory`,
/// where a growth was refused.
pub fn salvage_log(alloc: Global, bytes: Bytes) -> Result<Salvaged, LogError>
    // Which log.
    ensures longest { IfOk result (λ salvaged. IsLongestRun bytes salvaged.log) }
    // Where reading them all stops.
    ensures fault { IfOk result (λ salvaged. MatchOption salvaged.fault
        (log_of bytes ≡ Ok salvaged.log) (λ e. log_of bytes ≡ Err e)) }
    // What is left of no log, unless memory runs out.
    ensures err { IfErr result (λ e. Fails e (header_of bytes) × Fails e (log_of bytes)) }
{
    let mut reader = LogReader::new(bytes)?;
    let fault = read_through(alloc, &mut reader)?;
    let version = reader.log_version();
    let bytes = reader.bytes_given()?;
    let log = reader.spelled_in(version, bytes);
    Ok(Salvaged { log, fault })
}

/// Takes each record's frame out of the log's bytes.
fn cut_frames(records: &mut Vec<Record>, bytes: &Bytes, ends: &[usize]) -> Result<(), AllocError>
    requires count { length ends.now ≡ length records.old.items }
    requires ends { AreEnds bytes.now records.old.items ends.now }
    ensures { records.new.items ≡ records.old.items }
{
    for index in 0..records.len() {
        records[index].cut_frame(bytes, ends[index])?;
    }
    Ok(())
}

/// The one spelling, in this version, of the log with this vat and these records, whose frames are taken out of it, so
/// that no frame is kept twice. The records say the same as before, also where memory is refused.
fn spelled(
    alloc: Global,
    version: LogVersion,
    vat: u32,
    records: &mut Vec<Record>,
) -> Result<Bytes, AllocError>
    requires { count_width version ≡ w32 }
    ensures same { records.new.items ≡ records.old.items }
    ensures spelled { IfOk result (λ bytes.
        bytes ≡ log_bytes (record {
          version = version;
          vat = vat;
          records = records.old.items;
        })) }
    ensures fit { IfOk result (λ bytes. All Fits records.old.items) }
    ensures wide { IfOk result (λ bytes. All IsWide records.old.items) }
{
    let written = written_log(alloc, version, vat, records)?;
    cut_frames(records, &written.bytes, &written.ends)?;
    Ok(written.bytes)
}

/// The log of this vat with these records, in a version whose counts have 32 bits. The records are handed back where
/// memory is refused.
pub(crate) fn log_with(
    alloc: Global,
    version: LogVersion,
    vat: u32,
    records: Vec<Record>,
) -> Result<VatLog, Vec<Record>>
    requires counts { count_width version ≡ w32 }
    requires few { length records.items ≤ record_limit }
    ensures ok { IfOk result (λ log. log
        ≡ record { version = version; vat = vat; records = records.items }) }
    ensures err { IfErr result (λ refused. refused.items ≡ records.items) }
{
    let mut records = records;
    match spelled(alloc, version, vat, &mut records) {
        Ok(bytes) => Ok(VatLog {
            bytes,
            version,
            vat,
            records,
        }),
        Err(_) => Err(records),
    }
}

/// The log with the same vat and records in a version of today: in version 2 where it is of version 1. It is judged as
/// before, so a log of version 2 or 3 stays as it is.
///
/// # Errors
///
/// `OutOfMemory` alone.
pub fn migrate(alloc: Global, log: &VatLog) -> Result<VatLog, LogError>
    ensures ok { IfOk result (λ made. made ≡ migrated log.now) }
    // A log of version 2 or 3 stays as it is, and so do its bytes.
    ensures same { 2 ≤ version_number log.now.version → IfOk result (λ made. made ≡ log.now) }
    ensures err { IfErr result (λ e. e ≡ LogError.OutOfMemory) }
{
    let lent = lend(alloc, &log.records)?;
    log_with_lent(alloc, log.version.migrated(), log.vat, &lent)
}
