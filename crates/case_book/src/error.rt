//! Why logs and links make no case.

ghost use Rattle.std.specs.Prelude.{◌≡◌};
ghost use Rattle.case_book.specs.declared.error.CaseError.TheVariants.{OutOfMemory};

use std::alloc::{AllocError, AllocFailed};

/// Why logs and links make no case: the first of these that applies.
#[derive(Clone, Copy, Debug, PartialEq, Eq)]
pub enum CaseError {
    /// There are more logs than [`MAX_VATS`](crate::MAX_VATS).
    TooManyVats,
    /// This vat has two logs or more; no smaller vat number has.
    SameVat(u32),
    /// There are more links than [`MAX_LINKS`](crate::MAX_LINKS).
    TooManyLinks,
    /// This connection has two links or more; no smaller connection has.
    SameLink(u32),
    /// A growth of memory was refused. [`Case::new`](crate::Case::new) grows nothing, and never answers this.
    OutOfMemory,
}

impl From<AllocError> for CaseError {
    ghost from_gives = { λ _ e. e ≡ OutOfMemory };

    fn from(_e: AllocError) -> CaseError {
        CaseError::OutOfMemory
    }
}

impl<T: Drop> From<AllocFailed<T>> for CaseError {
    ghost from_gives = { λ _ e. e ≡ OutOfMemory };

    fn from(_e: AllocFailed<T>) -> CaseError {
        CaseError::OutOfMemory
    }
}
