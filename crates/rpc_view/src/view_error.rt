//! Why a frame isn't read as a message.

ghost use Rattle.std.specs.Prelude.{◌≡◌};
ghost use Rattle.rpc_view.specs.declared.view_error.ViewError.TheVariants.{OutOfMemory, Frame};
ghost use Rattle.rpc_view.specs.Reading.{fault_of};

use cap_frame::FrameError;
use cap_reader::ReadError;
use std::alloc::{AllocError, AllocFailed};

/// What a message has that is outside of this profile, which is level 1.
#[derive(Clone, Copy, Debug, PartialEq, Eq)]
pub enum Outside {
    /// Part of a level above 1: provide, accept, join, the obsolete messages of persistence, and what has to do with
    /// third parties.
    Level,
    /// The message `unimplemented`.
    Unimplemented,
    /// A field of the later edition of rpc.capnp that changes the life of a number, in a message that is read by the
    /// first one.
    LaterField,
}

/// Why a frame isn't read as a message.
#[derive(Clone, Copy, Debug, PartialEq, Eq)]
pub enum ViewError {
    /// A pointer can't be followed within the limits. It never holds `ReadError::OutOfMemory`, which is `OutOfMemory`
    /// here.
    Read(ReadError),
    /// A message, or a part of one, that is outside of this profile.
    Outside(Outside),
    /// A tag that this profile doesn't list.
    BadTag,
    /// Memory was refused. The same frame may be read again.
    OutOfMemory,
    /// The bytes aren't a frame.
    Frame(FrameError),
}

impl From<FrameError> for ViewError {
    ghost from_gives = { λ e error. error ≡ Frame e };

    fn from(e: FrameError) -> ViewError {
        ViewError::Frame(e)
    }
}

/// Running out of memory stays what it is; any other fault is that of a pointer.
impl From<ReadError> for ViewError {
    ghost from_gives = { λ e error. error ≡ fault_of e };

    fn from(e: ReadError) -> ViewError {
        match e {
            ReadError::OutOfMemory => ViewError::OutOfMemory,
            other => ViewError::Read(other),
        }
    }
}

impl From<AllocError> for ViewError {
    ghost from_gives = { λ _ error. error ≡ OutOfMemory };

    fn from(_e: AllocError) -> ViewError {
        ViewError::OutOfMemory
    }
}

impl<T: Drop> From<AllocFailed<T>> for ViewError {
    ghost from_gives = { λ _ error. error ≡ OutOfMemory };

    fn from(_e: AllocFailed<T>) -> ViewError {
        ViewError::OutOfMemory
    }
}
