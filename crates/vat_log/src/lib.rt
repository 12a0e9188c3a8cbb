//! Logs of one vat: their records, and their one spelling in the bytes of each version (docs/FORMATS.md).
//!
//! It stands on `bytes`, from which frames are cut without copying, on `byte_pieces` for logs that come from a file, on
//! `cap_frame` for its paths, and on `erased` for the records that a reader gave. How a log is spelled is said in
//! `specs/Spelling.antt`, how bytes are read and which fault is first in `specs/Reading.antt`, what a log can hold in
//! `specs/Fits.antt`, with which logs bytes begin in `specs/Runs.antt`, and what may be said of bytes of which more may come
//! in `specs/Streams.antt`. [`parse_log`] and [`write_log`] answer exactly what these say, and a [`VatLog`] is what its bytes
//! spell. A [`LogStream`] gives a log's records one after another and keeps none, behind its [`LogHeader`]; where the bytes come
//! in pieces it keeps what isn't read yet. [`salvage_log`] gives the longest run
//! of whole records, as a [`SpelledLog`], of which the bytes alone are kept.
//!
//! All three versions are read. Version 2 is written, or version 3 where a runtime speaks the later edition of rpc.capnp
//! ([`write_later_log`], [`LogWriter::later`]). [`migrate`] makes a version 2 log of one of version 1; [`migrate_bytes`]
//! makes the same of bytes, and [`raise_bytes`] a version 3 log of those of any, and they keep no record. A [`LogWriter`] is for a runtime of one thread, which writes its log record by record.
#![tactic(auto)]

mod body;
mod error;
mod header;
mod laws;
mod log;
mod log_stream;
mod migrating;
mod passage;
mod passing;
mod read_fault;
mod reader;
mod record;
mod spelled_log;
mod spelling;
mod version;
mod writer;

pub use body::{Body, References, ResultReferences};
pub use error::LogError;
pub use header::LogHeader;
pub use laws::{one_spelling, runs_of_one_log};
pub use log::{Salvaged, VatLog, migrate, parse_log, salvage_log};
pub use log_stream::LogStream;
pub use migrating::{migrate_bytes, raise_bytes};
pub use read_fault::ReadFault;
pub use record::Record;
pub use spelled_log::SpelledLog;
pub use spelling::storing::{write_later_log, write_lent_later_log, write_lent_log, write_log};
pub use writer::LogWriter;
