//! Why bytes aren't read as a schema.

ghost use Rattle.std.specs.Prelude.{◌≡◌};
ghost use Rattle.schema_names.specs.declared.schema_error.SchemaError.TheVariants.{OutOfMemory, Frame};
ghost use Rattle.schema_names.specs.Reading.{schema_fault_of};

use cap_frame::FrameError;
use cap_reader::ReadError;
use std::alloc::{AllocError, AllocFailed};

/// Why bytes aren't read as a schema.
#[derive(Clone, Copy, Debug, PartialEq, Eq)]
pub enum SchemaError {
    /// The bytes aren't a frame.
    Frame(FrameError),
    /// A pointer can't be followed within the limits. It never holds `ReadError::OutOfMemory`, which is `OutOfMemory`
    /// here.
    Read(ReadError),
    /// There is no node, where a schema compiler writes one for each file.
    NoNodes,
    /// The name of an interface or of a method is missing, or has another byte than printable ASCII.
    BadName,
    /// Memory was refused. The same bytes may be read again.
    OutOfMemory,
}

impl From<FrameError> for SchemaError {
    ghost from_gives = { λ e error. error ≡ Frame e };

    fn from(e: FrameError) -> SchemaError {
        SchemaError::Frame(e)
    }
}

/// Running out of memory stays what it is; any other fault is that of a pointer.
impl From<ReadError> for SchemaError {
    ghost from_gives = { λ e error. error ≡ schema_fault_of e };

    fn from(e: ReadError) -> SchemaError {
        match e {
            ReadError::OutOfMemory => SchemaError::OutOfMemory,
            other => SchemaError::Read(other),
        }
    }
}

impl From<AllocError> for SchemaError {
    ghost from_gives = { λ _ error. error ≡ OutOfMemory };

    fn from(_e: AllocError) -> SchemaError {
        SchemaError::OutOfMemory
    }
}

impl<T: Drop> From<AllocFailed<T>> for SchemaError {
    ghost from_gives = { λ _ error. error ≡ OutOfMemory };

    fn from(_e: AllocFailed<T>) -> SchemaError {
        SchemaError::OutOfMemory
    }
}
