//! What is wrong with a log.

ghost use Rattle.std.specs.Prelude.{◌≡◌};
ghost use Rattle.vat_log.specs.declared.error.LogError.TheVariants.{OutOfMemory};

use std::alloc::{AllocError, AllocFailed};

/// What is wrong with a log's bytes: the first fault from left to right. Offsets are in bytes from the log's begin. It
/// is also why no log can hold a body or so many records, where there are no bytes and so no offset.
#[derive(Clone, Copy, Debug, PartialEq, Eq)]
pub enum LogError {
    /// The first 8 bytes aren't the magic.
    BadMagic,
    /// The field that begins at this offset is cut.
    Short(u64),
    /// The byte at this offset is no record kind.
    BadKind(u64),
    /// The reference or call at this offset is 0; of a body that no log can hold, the number here is 0.
    ZeroNumber(u64),
    /// A record, a count or a frame is past its limit.
    TooLong,
    /// A growth of memory was refused.
    OutOfMemory,
}

impl From<AllocError> for LogError {
    ghost from_gives = { λ _ e. e ≡ OutOfMemory };

    fn from(_e: AllocError) -> LogError {
        LogError::OutOfMemory
    }
}

impl<T: Drop> From<AllocFailed<T>> for LogError {
    ghost from_gives = { λ _ e. e ≡ OutOfMemory };

    fn from(_e: AllocFailed<T>) -> LogError {
        LogError::OutOfMemory
    }
}
