//! Why bytes aren't an order.

ghost use Rattle.std.specs.Prelude.{◌≡◌};
ghost use Rattle.merge_order.specs.declared.error.OrderError.TheVariants.{OutOfMemory};

use std::alloc::{AllocError, AllocFailed};

/// Why bytes aren't an order: the first fault from left to right. The offset is in bytes from the begin.
#[derive(Clone, Copy, Debug, PartialEq, Eq)]
pub enum OrderError {
    /// The first 8 bytes aren't the magic.
    BadMagic,
    /// The step that begins at this offset is cut.
    Short(u64),
    /// A growth of memory was refused.
    OutOfMemory,
}

impl From<AllocError> for OrderError {
    ghost from_gives = { λ _ e. e ≡ OutOfMemory };

    fn from(_e: AllocError) -> OrderError {
        OrderError::OutOfMemory
    }
}

impl<T: Drop> From<AllocFailed<T>> for OrderError {
    ghost from_gives = { λ _ e. e ≡ OutOfMemory };

    fn from(_e: AllocFailed<T>) -> OrderError {
        OrderError::OutOfMemory
    }
}
