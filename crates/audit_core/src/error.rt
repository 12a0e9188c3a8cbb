//! Why a case isn't audited.

ghost use Rattle.std.specs.Prelude.{◌≡◌};
ghost use Rattle.audit_core.specs.declared.error.AuditError.TheVariants.{OutOfMemory};

use std::alloc::{AllocError, AllocFailed};

/// Why a case isn't audited: the first of these that applies.
#[derive(Clone, Copy, Debug, PartialEq, Eq)]
pub enum AuditError {
    /// There is no worker.
    NoWorkers,
    /// There are more than 64 workers.
    TooManyWorkers,
    /// A log uses this connection, and it has no link with that vat as an end; or its link names a vat without a log. No
    /// smaller connection is so.
    MissingLog(u32),
    /// Both ends of this connection's link are one vat; those of no smaller connection are.
    SameEnds(u32),
    /// A growth of memory was refused.
    OutOfMemory,
}

impl From<AllocError> for AuditError {
    ghost from_gives = { λ _ e. e ≡ OutOfMemory };

    fn from(_e: AllocError) -> AuditError {
        AuditError::OutOfMemory
    }
}

impl<T: Drop> From<AllocFailed<T>> for AuditError {
    ghost from_gives = { λ _ e. e ≡ OutOfMemory };

    fn from(_e: AllocFailed<T>) -> AuditError {
        AuditError::OutOfMemory
    }
}
