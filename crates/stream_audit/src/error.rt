//! Why a case that comes in streams has no report.

ghost use Rattle.std.specs.Prelude.{◌≡◌};
ghost use Rattle.stream_audit.specs.declared.error.StreamError.TheVariants.{OutOfMemory, Refused};

use case_book::CaseError;
use std::alloc::{AllocError, AllocFailed};
use vat_log::ReadFault;

/// Why a case that comes in streams has no report: the first of these that applies.
#[derive(Clone, Copy, Debug, PartialEq, Eq)]
pub enum StreamError {
    /// There is no worker.
    NoWorkers,
    /// There are more than 64 workers.
    TooManyWorkers,
    /// A log isn't whole, or can't be read; those before it are.
    Log {
        /// The log's place, counted from 0.
        place: usize,
        /// Its first fault.
        fault: ReadFault,
    },
    /// The logs and links make no case.
    Refused(CaseError),
    /// A log uses this connection, and it has no link with that vat as an end; or its link names a vat without a log. No
    /// smaller connection is so.
    MissingLog(u32),
    /// Both ends of this connection's link are one vat; those of no smaller connection are.
    SameEnds(u32),
    /// A growth of memory was refused.
    OutOfMemory,
}

impl From<AllocError> for StreamError {
    ghost from_gives = { λ _ e. e ≡ OutOfMemory };

    fn from(_e: AllocError) -> StreamError {
        StreamError::OutOfMemory
    }
}

impl<T: Drop> From<AllocFailed<T>> for StreamError {
    ghost from_gives = { λ _ e. e ≡ OutOfMemory };

    fn from(_e: AllocFailed<T>) -> StreamError {
        StreamError::OutOfMemory
    }
}

impl From<CaseError> for StreamError {
    ghost from_gives = { λ error e. e ≡ Refused error };

    fn from(error: CaseError) -> StreamError {
        StreamError::Refused(error)
    }
}
