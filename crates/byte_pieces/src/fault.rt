//! Why no piece comes.

ghost use Rattle.std.specs.Prelude.{◌≡◌};
ghost use Rattle.byte_pieces.specs.declared.fault.PieceFault.TheVariants.{OutOfMemory};

use std::alloc::{AllocError, AllocFailed};

/// Why no piece comes.
#[derive(Clone, Copy, Debug, PartialEq, Eq)]
pub enum PieceFault {
    /// It can't be read.
    CannotRead,
    /// A growth of memory was refused.
    OutOfMemory,
}

impl From<AllocError> for PieceFault {
    ghost from_gives = { λ _ e. e ≡ OutOfMemory };

    fn from(_e: AllocError) -> PieceFault {
        PieceFault::OutOfMemory
    }
}

impl<T: Drop> From<AllocFailed<T>> for PieceFault {
    ghost from_gives = { λ _ e. e ≡ OutOfMemory };

    fn from(_e: AllocFailed<T>) -> PieceFault {
        PieceFault::OutOfMemory
    }
}
