//! Why an input has no finding, message or order.

ghost use Rattle.std.specs.Prelude.{◌≡◌, Some};
ghost use Rattle.report_lines.specs.declared.fault.Fault.TheVariants.{OutOfMemory};
ghost use Rattle.report_lines.specs.Faults.{fault_status, fault_text, of_case, of_log, of_source, of_view};

use crate::shown::Shown;
use cap_frame::FrameError;
use cap_reader::ReadError;
use case_book::{CaseError, TieFault};
use case_files::{CaseFault, SourceError};
use merge_order::OrderError;
use rpc_view::{Outside, ViewError};
use std::alloc::{AllocError, AllocFailed};
use std::fmt::{self, Display, Formatter};
use vat_log::LogError;

/// Why an input has no finding, message or order. It is shown as its line (docs/FORMATS.md), without the line's end.
/// Running out of memory is `OutOfMemory` alone, and in none of the others.
#[derive(Clone, Copy, Debug, PartialEq, Eq)]
pub enum Fault {
    /// A file can't be read.
    CannotRead,
    /// A growth of memory was refused.
    OutOfMemory,
    /// A word isn't hexadecimal digits, two a byte.
    BadHex,
    /// Bytes aren't a frame.
    Frame(FrameError),
    /// A pointer of a frame can't be followed.
    Read(ReadError),
    /// A frame's message is outside of what is read.
    Outside(Outside),
    /// A tag of a frame's message isn't known.
    BadTag,
    /// Bytes aren't a log.
    Log(LogError),
    /// Bytes aren't an order.
    Order(OrderError),
    /// A case file isn't of the form of one.
    Form,
    /// The logs and links of a case make none.
    Refused(CaseError),
    /// The logs and links of a case don't tie up.
    Untied(TieFault),
}

impl Fault {
    /// The exit status: 3 where memory ran out, else 2.
    pub fn status(&self) -> u8
        ensures { result ≡ fault_status self.now }
    {
        match self {
            Fault::OutOfMemory => 3,
            _ => 2,
        }
    }
}

impl Display for Fault {
    ghost output = { λ fault. Some (fault_text fault) };

    fn fmt<W: fmt::Write>(&self, f: &mut Formatter<W>) -> fmt::Result {
        match self {
            Fault::CannotRead => f.write_str("cannot read"),
            Fault::OutOfMemory => f.write_str("out of memory"),
            Fault::BadHex => f.write_str("bad hex"),
            Fault::Frame(fault) => write!(f, "bad frame {}", Shown(*fault)),
            Fault::Read(fault) => write!(f, "bad read {}", Shown(*fault)),
            Fault::Outside(why) => write!(f, "outside {}", Shown(*why)),
            Fault::BadTag => f.write_str("bad tag"),
            Fault::Log(fault) => write!(f, "bad log {}", Shown(*fault)),
            Fault::Order(fault) => write!(f, "bad order {}", Shown(*fault)),
            Fault::Form => f.write_str("bad case"),
            Fault::Refused(refusal) => write!(f, "bad case {}", Shown(*refusal)),
            Fault::Untied(fault) => write!(f, "bad case {}", Shown(*fault)),
        }
    }
}

impl From<AllocError> for Fault {
    ghost from_gives = { λ _ e. e ≡ OutOfMemory };

    fn from(_e: AllocError) -> Fault {
        Fault::OutOfMemory
    }
}

impl<T: Drop> From<AllocFailed<T>> for Fault {
    ghost from_gives = { λ _ e. e ≡ OutOfMemory };

    fn from(_e: AllocFailed<T>) -> Fault {
        Fault::OutOfMemory
    }
}

impl From<SourceError> for Fault {
    ghost from_gives = { λ fault e. e ≡ of_source fault };

    fn from(fault: SourceError) -> Fault {
        match fault {
            SourceError::CannotRead => Fault::CannotRead,
            SourceError::OutOfMemory => Fault::OutOfMemory,
        }
    }
}

impl From<LogError> for Fault {
    ghost from_gives = { λ fault e. e ≡ of_log fault };

    fn from(fault: LogError) -> Fault {
        match fault {
            LogError::OutOfMemory => Fault::OutOfMemory,
            fault => Fault::Log(fault),
        }
    }
}

impl From<ViewError> for Fault {
    ghost from_gives = { λ fault e. e ≡ of_view fault };

    fn from(fault: ViewError) -> Fault {
        match fault {
            ViewError::Read(fault) => Fault::Read(fault),
            ViewError::Outside(why) => Fault::Outside(why),
            ViewError::BadTag => Fault::BadTag,
            ViewError::OutOfMemory => Fault::OutOfMemory,
            ViewError::Frame(fault) => Fault::Frame(fault),
        }
    }
}

impl From<CaseFault> for Fault {
    ghost from_gives = { λ fault e. e ≡ of_case fault };

    fn from(fault: CaseFault) -> Fault {
        match fault {
            CaseFault::CannotRead => Fault::CannotRead,
            CaseFault::Form => Fault::Form,
            CaseFault::Log(fault) => Fault::Log(fault),
            CaseFault::Order(fault) => Fault::Order(fault),
            CaseFault::Refused(refusal) => Fault::Refused(refusal),
            CaseFault::Untied(fault) => Fault::Untied(fault),
            CaseFault::OutOfMemory => Fault::OutOfMemory,
        }
    }
}
