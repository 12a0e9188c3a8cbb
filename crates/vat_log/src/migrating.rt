//! Another version of a log, made while the log is read.

ghost use Rattle.std.specs.Prelude.{◌≡◌, Ok, IfOk, IfErr};
ghost use Rattle.std.specs.Int.{w32};
ghost use Rattle.vat_log.specs.Log.{Log};
ghost use Rattle.vat_log.specs.Migrated.{migrated, raised};
ghost use Rattle.vat_log.specs.Reading.{Fails, header_of, log_of};
ghost use Rattle.vat_log.specs.Spelling.{count_width};

use crate::error::LogError;
use crate::reader::LogReader;
use crate::spelled_log::SpelledLog;
use crate::spelling::body_writing::{put_body, put_header};
use crate::version::LogVersion;
use bytes::Bytes;
use std::alloc::Global;

/// The log that a reader reads from its first record on, in a version whose counts have 32 bits.
fn respelled(
    alloc: Global,
    version: LogVersion,
    mut reader: LogReader,
) -> Result<SpelledLog, LogError>
    requires counts { count_width version ≡ w32 }
    requires begun { header_of reader.bytes ≡ Ok reader.log }
    ensures made { IfOk result (λ made. (log : Log) × (log_of reader.bytes ≡ Ok log)
        × (made ≡ record log { version = version })) }
    ensures err { IfErr result (λ e. Fails e (log_of reader.bytes)) }
{
    let mut out = Vec::new(alloc);
    put_header(&mut out, version, reader.vat())?;
    while let Some(entry) = reader.next(alloc)? {
        put_body(&mut out, entry.body())?;
    }
    let bytes = Bytes::from_vec(out)?;
    Ok(reader.spelled_in(version, bytes))
}

/// What [`migrate`](crate::migrate) makes of the log that these bytes spell. It is made record by record, and none is
/// kept: beside these bytes there are its own alone.
///
/// # Errors
///
/// The first fault of the bytes, as [`parse_log`](crate::parse_log) gives it; or `OutOfMemory`, where a growth was refused.
pub fn migrate_bytes(alloc: Global, bytes: Bytes) -> Result<SpelledLog, LogError>
    // What is made of the log that the bytes spell.
    ensures made { IfOk result (λ made. (log : Log) × (log_of bytes ≡ Ok log) × (made ≡ migrated log)) }
    // Why none is made: the bytes spell no log, or memory ran out.
    ensures err { IfErr result (λ e. Fails e (log_of bytes)) }
{
    let reader = LogReader::new(bytes)?;
    respelled(alloc, reader.log_version().migrated(), reader)
}

/// The version 3 log with the same vat and records as the one that these bytes spell: for the log of a runtime that spoke the
/// later edition of rpc.capnp, where it was written in version 1 or 2 (docs/FORMATS.md). More may be good of it than of the log
/// before. A log of version 3 stays as it is. It is made record by record, and none is kept.
///
/// # Errors
///
/// The first fault of the bytes, as [`parse_log`](crate::parse_log) gives it; or `OutOfMemory`, where a growth was refused.
pub fn raise_bytes(alloc: Global, bytes: Bytes) -> Result<SpelledLog, LogError>
    // What is made of the log that the bytes spell.
    ensures made { IfOk result (λ made. (log : Log) × (log_of bytes ≡ Ok log) × (made ≡ raised log)) }
    // Why none is made: the bytes spell no log, or memory ran out.
    ensures err { IfErr result (λ e. Fails e (log_of bytes)) }
{
    let reader = LogReader::new(bytes)?;
    respelled(alloc, LogVersion::Three, reader)
}
