//! Why no more is read of a log that comes in pieces.

ghost use Rattle.std.specs.Prelude.{◌≡◌, ◌≤◌, ◌^◌, IfNone, IfSome};
ghost use Rattle.vat_log.specs.Windows.{FaultFrom, StopFrom, counted_from, fault_of_piece, place_of};

use crate::error::LogError;
use byte_pieces::PieceFault;

/// Why no more is read of a log that comes in pieces.
#[derive(Clone, Copy, Debug, PartialEq, Eq)]
pub enum ReadFault {
    /// This is the first fault of its bytes, whatever comes behind those that came. It isn't `OutOfMemory`.
    Bad(LogError),
    /// Its bytes can't be read, or are 2^64 or more.
    CannotRead,
    /// A growth of memory was refused.
    OutOfMemory,
}

impl From<PieceFault> for ReadFault {
    ghost use Rattle.vat_log.specs.Windows.{fault_of_piece};

    ghost from_gives = { λ fault e. e ≡ fault_of_piece fault };

    fn from(fault: PieceFault) -> ReadFault {
        match fault {
            PieceFault::CannotRead => ReadFault::CannotRead,
            PieceFault::OutOfMemory => ReadFault::OutOfMemory,
        }
    }
}

/// The fault with its offset counted from so many bytes before; none where that is no number of 64 bits.
fn counted_from(begin: u64, fault: LogError) -> Option<LogError>
    ensures some { IfSome result (λ e. e ≡ counted_from begin fault) }
    ensures none { IfNone result (2 ^ 64 ≤ place_of (counted_from begin fault)) }
{
    match fault {
        LogError::Short(at) => Some(LogError::Short(begin.checked_add(at)?)),
        LogError::BadKind(at) => Some(LogError::BadKind(begin.checked_add(at)?)),
        LogError::ZeroNumber(at) => Some(LogError::ZeroNumber(begin.checked_add(at)?)),
        LogError::BadMagic | LogError::TooLong | LogError::OutOfMemory => Some(fault),
    }
}

/// Why no more is read where a window that begins at this offset has this fault. A fault that lies 2^64 bytes from the log's
/// begin can't be told.
pub(crate) fn fault_from(begin: u64, fault: LogError) -> ReadFault
    ensures { FaultFrom begin fault result }
{
    match counted_from(begin, fault) {
        Some(LogError::OutOfMemory) => ReadFault::OutOfMemory,
        Some(told) => ReadFault::Bad(told),
        None => ReadFault::CannotRead,
    }
}

/// Why a window gives no record.
#[derive(Clone, Copy)]
pub(crate) enum Stop {
    /// It ends in front of one.
    Ends,
    /// It ends in the middle of one, which has this fault if no more bytes come.
    Cut(ReadFault),
    /// No record stands there, whatever comes.
    Fault(ReadFault),
}

impl Stop {
    /// Why a window that begins at this offset and has this fault gives no record.
    pub(crate) fn at(begin: u64, fault: LogError) -> Stop
        ensures { StopFrom begin fault result }
    {
        match fault {
            LogError::Short(_) => Stop::Cut(fault_from(begin, fault)),
            _ => Stop::Fault(fault_from(begin, fault)),
        }
    }
}
