//! Reading a log record by record.

ghost use Rattle.std.specs.Prelude.{◌≡◌, ◌<◌, ◌^◌, Ok, Err, All, length, IfOk, IfErr, MatchOption};
ghost use Rattle.vat_log.specs.Parsed.{IsParsed};
ghost use Rattle.vat_log.specs.Reading.{header_of, log_of};
ghost use Rattle.vat_log.specs.Runs.{BeginsWith, IsLongestRun, StopsBy, with_record};
ghost use Rattle.vat_log.specs.Spelling.{log_bytes};

use crate::body::Body;
use crate::error::LogError;
use crate::header::LogHeader;
use crate::record::Record;
use crate::spelled_log::SpelledLog;
use crate::spelling::fields::u32_at;
use crate::version::{LogVersion, read_version};
use bytes::Bytes;
use erased::Erased;
use std::alloc::{AllocError, Global};
use std::marker::Model;

/// A log that is read record by record, so that no more than one of its records need be kept. To a contract it is the
/// bytes, and the log with the records that were given so far.
#[derive(Drop)]
pub(crate) struct LogReader {
    bytes: Bytes,
    version: LogVersion,
    vat: u32,
    at: usize,
    count: usize,
    given: Erased<Body>,
}

impl Model for LogReader {
    ghost use Rattle.std.specs.Prelude.{◌≡◌, ◌<◌, ◌^◌, All, length, reverse};
    ghost use Rattle.vat_log.specs.Fits.{record_limit};
    ghost use Rattle.vat_log.specs.Reader.{IsReadTo};
    ghost use Rattle.vat_log.specs.Runs.{ReadSoFar};

    ghost Value = { ReadSoFar };

    ghost view = { λ reader. record {
      bytes = reader.bytes;
      log = record { version = reader.version; vat = reader.vat; records = reverse reader.given.items };
    } };

    ghost invariant = { λ reader. (length reader.given.items ≡ reader.count)
        × All (λ octet. octet < 2 ^ 8) reader.bytes
        × IsReadTo record_limit reader.bytes
        (record { version = reader.version; vat = reader.vat; records = reverse reader.given.items }) reader.at };
}

impl LogReader {
    /// The reader of these bytes, before the first record. It takes no memory.
    ///
    /// # Errors
    ///
    /// The fault of the header, by which no log begins: `BadMagic`, or `Short(8)` where the vat is cut.
    pub(crate) fn new(bytes: Bytes) -> Result<LogReader, LogError>
        ensures bytes { IfOk result (λ reader. reader.bytes ≡ bytes) }
        ensures header { IfOk result (λ reader. header_of bytes ≡ Ok reader.log) }
        ensures begun { IfOk result (λ reader. BeginsWith bytes reader.log) }
        ensures err { IfErr result (λ e. (header_of bytes ≡ Err e) × (log_of bytes ≡ Err e)) }
    {
        let version = read_version(bytes.as_slice())?;
        let (vat, at) = u32_at(bytes.as_slice(), 8)?;
        Ok(LogReader {
            bytes,
            version,
            vat,
            at,
            count: 0,
            given: Erased::new(),
        })
    }

    /// The vat whose log this is.
    pub(crate) fn vat(&self) -> u32
        ensures { result ≡ self.now.log.vat }
    {
        self.vat
    }

    /// The next record, or none at the end. Memory is asked for what the record itself keeps.
    ///
    /// # Errors
    ///
    /// The first fault of the log, with the offset that [`parse_log`](crate::parse_log) gives; or `OutOfMemory`, where a
    /// growth was refused. The reader stays in front of the record, so it can be asked again.
    pub(crate) fn next(&mut self, alloc: Global) -> Result<Option<Record>, LogError>
        ensures bytes { self.new.bytes ≡ self.old.bytes }
        // What was given is a run of whole records with which the bytes begin.
        ensures begun { BeginsWith self.new.bytes self.new.log }
        // A record is the next one; at the end all were given, and no more stand there whole.
        ensures given { IfOk result (λ next. MatchOption next
            ((self.new ≡ self.old) × (log_of self.old.bytes ≡ Ok self.old.log)
            × IsLongestRun self.old.bytes self.old.log)
            (λ entry. self.new.log ≡ with_record entry self.old.log)) }
        // Why there is no next one.
        ensures err { IfErr result (λ e. (self.new ≡ self.old) × StopsBy e self.old) }
    {
        if self.at >= self.bytes.len() {
            return Ok(None);
        }
        let (entry, after) = Record::next(alloc, self.version, self.count, &self.bytes, self.at)?;
        self.at = after;
        self.count += 1;
        self.given = self.given.with(entry.body());
        Ok(Some(entry))
    }

    /// The bytes of what was given so far, which are a part of the log's. The only error is that memory ran out.
    pub(crate) fn bytes_given(&self) -> Result<Bytes, AllocError>
        ensures { IfOk result (λ bytes. bytes ≡ log_bytes self.now.log) }
    {
        self.bytes.slice(0..self.at)
    }

    /// The version of the log, which the reader read first.
    pub(crate) fn log_version(&self) -> LogVersion
        ensures { result ≡ self.now.log.version }
    {
        self.version
    }

    /// The log of what was given so far, in this version, in which it is spelled by these bytes.
    pub(crate) fn spelled_in(self, version: LogVersion, bytes: Bytes) -> SpelledLog
        requires { IsParsed bytes (record self.log { version = version }) }
        ensures { result ≡ record self.log { version = version } }
    {
        let LogReader {
            vat,
            count,
            given,
            ..
        } = self;
        SpelledLog {
            header: LogHeader { version, vat },
            count,
            records: given,
            bytes,
        }
    }

    /// All bytes of the log.
    pub(crate) fn into_bytes(self) -> Bytes
        ensures same { result ≡ self.bytes }
        ensures octets { All (λ octet. octet < 2 ^ 8) result }
    {
        let LogReader { bytes, .. } = self;
        bytes
    }
}
