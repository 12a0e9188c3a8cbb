//! Writing a log record by record.

ghost use Rattle.std.specs.Int.{w32};
ghost use Rattle.std.specs.Prelude.{◌≡◌, ◌≤◌, ◌<◌, [], ◌∷◌, ◌++◌, length, OnOk, IfOk, IfErr};
ghost use Rattle.vat_log.specs.Fits.{record_limit, NotPushed};
ghost use Rattle.vat_log.specs.Log.{written_version, later_version};
ghost use Rattle.vat_log.specs.Spelling.{count_width};

use crate::error::LogError;
use crate::log::{VatLog, log_with};
use crate::record::Record;
use crate::spelling::log_limits::MAX_RECORDS;
use crate::version::LogVersion;
use std::alloc::Global;
use std::marker::Model;

/// A log of version 2 or 3 that one thread writes, record by record. To a contract it is the log with the records pushed so
/// far.
#[derive(Debug, Drop)]
pub struct LogWriter {
    version: LogVersion,
    vat: u32,
    records: Vec<Record>,
}

impl Model for LogWriter {
    ghost use Rattle.std.specs.Int.{w32};
    ghost use Rattle.std.specs.Prelude.{◌≡◌, ◌≤◌, length};
    ghost use Rattle.vat_log.specs.Fits.{record_limit};
    ghost use Rattle.vat_log.specs.Log.{Log};
    ghost use Rattle.vat_log.specs.Spelling.{count_width};

    ghost Value = { Log };

    ghost view = { λ writer. record { version = writer.version; vat = writer.vat; records = writer.records.items } };

    ghost invariant = { λ writer. (length writer.records.items ≤ record_limit)
        × (count_width writer.version ≡ w32) };
}

impl LogWriter {
    /// A log of this vat, without records, in a version whose counts have 32 bits.
    fn begun(alloc: Global, version: LogVersion, vat: u32) -> LogWriter
        requires { count_width version ≡ w32 }
        ensures { result ≡ record { version = version; vat = vat; records = [] } }
    {
        LogWriter {
            version,
            vat,
            records: Vec::new(alloc),
        }
    }

    /// A log of version 2 and of this vat, without records. It takes no memory.
    pub fn new(alloc: Global, vat: u32) -> LogWriter
        ensures { result ≡ record { version = written_version; vat = vat; records = [] } }
    {
        LogWriter::begun(alloc, LogVersion::Two, vat)
    }

    /// A log of version 3 and of this vat, without records: for a runtime that speaks the later edition of rpc.capnp
    /// (docs/FORMATS.md). It takes no memory.
    pub fn later(alloc: Global, vat: u32) -> LogWriter
        ensures { result ≡ record { version = later_version; vat = vat; records = [] } }
    {
        LogWriter::begun(alloc, LogVersion::Three, vat)
    }

    /// Puts a record behind the others. A record that is refused is handed back, and the writer is as it was.
    ///
    /// # Errors
    ///
    /// `TooLong` where the log has 4,294,967,295 records; or `OutOfMemory`, where a growth was refused.
    #[tactic(auto, unfolding(crate::specs::Fits::record_limit))]
    pub fn push(&mut self, entry: Record) -> Result<(), (LogError, Record)>
        ensures vat { self.new.vat ≡ self.old.vat }
        ensures version { self.new.version ≡ self.old.version }
        // What is pushed.
        ensures ok { OnOk result (self.new.records ≡ self.old.records ++ entry ∷ []) }
        // What is left of a refused push, and why it was refused.
        ensures err { IfErr result (λ refused.
            (refused.1 ≡ entry) × (self.new ≡ self.old) × NotPushed self.old refused.0) }
        // A full log takes no more.
        ensures full { length self.new.records ≤ record_limit }
    {
        if self.records.len() >= MAX_RECORDS {
            return Err((LogError::TooLong, entry));
        }
        match self.records.push(entry) {
            Ok(()) => Ok(()),
            Err(refused) => Err((LogError::OutOfMemory, refused.value)),
        }
    }

    /// The log with just the records pushed. Where memory is refused, the writer is handed back, and it can go on.
    ///
    /// # Errors
    ///
    /// `OutOfMemory` alone.
    #[tactic(auto, unfolding(crate::specs::Fits::record_limit))]
    pub fn finish(self) -> Result<VatLog, (LogError, LogWriter)>
        ensures ok { IfOk result (λ log. log ≡ self) }
        ensures err { IfErr result (λ refused.
            (refused.0 ≡ LogError.OutOfMemory) × (refused.1 ≡ self)) }
    {
        let LogWriter {
            version,
            vat,
            records,
        } = self;
        match log_with(*records.allocator(), version, vat, records) {
            Ok(log) => Ok(log),
            Err(records) => {
                let writer = LogWriter {
                    version,
                    vat,
                    records,
                };
                Err((LogError::OutOfMemory, writer))
            }
        }
    }
}
