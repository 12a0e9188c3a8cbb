//! Why the files that a case names make no case.

ghost use Rattle.std.specs.Prelude.{◌≡◌};
ghost use Rattle.case_files.specs.declared.case_fault.CaseFault.TheVariants.{OutOfMemory};
ghost use Rattle.case_files.specs.CaseFaults.{case_fault_of_log, of_order, of_refusal, case_fault_of_source};

use crate::source::SourceError;
use case_book::{CaseError, TieFault};
use merge_order::OrderError;
use std::alloc::{AllocError, AllocFailed};
use vat_log::LogError;

/// Why the files that a case names make no case. They are tried in this order: the case file, each log as listed, the
/// order, then the case of the logs and links.
#[derive(Clone, Copy, Debug, PartialEq, Eq)]
pub enum CaseFault {
    /// The case file, a log or the order can't be read.
    CannotRead,
    /// The case file isn't of the form of one.
    Form,
    /// The bytes of a log aren't a log. Never because memory ran out.
    Log(LogError),
    /// The bytes of the order aren't an order. Never because memory ran out.
    Order(OrderError),
    /// The logs and links make no case. Never because memory ran out.
    Refused(CaseError),
    /// The logs and links don't tie up.
    Untied(TieFault),
    /// A growth of memory was refused.
    OutOfMemory,
}

impl From<AllocError> for CaseFault {
    ghost from_gives = { λ _ e. e ≡ OutOfMemory };

    fn from(_e: AllocError) -> CaseFault {
        CaseFault::OutOfMemory
    }
}

impl<T: Drop> From<AllocFailed<T>> for CaseFault {
    ghost from_gives = { λ _ e. e ≡ OutOfMemory };

    fn from(_e: AllocFailed<T>) -> CaseFault {
        CaseFault::OutOfMemory
    }
}

impl From<SourceError> for CaseFault {
    ghost from_gives = { λ fault e. e ≡ case_fault_of_source fault };

    fn from(fault: SourceError) -> CaseFault {
        match fault {
            SourceError::CannotRead => CaseFault::CannotRead,
            SourceError::OutOfMemory => CaseFault::OutOfMemory,
        }
    }
}

impl From<LogError> for CaseFault {
    ghost from_gives = { λ fault e. e ≡ case_fault_of_log fault };

    fn from(fault: LogError) -> CaseFault {
        match fault {
            LogError::OutOfMemory => CaseFault::OutOfMemory,
            fault => CaseFault::Log(fault),
        }
    }
}

impl From<OrderError> for CaseFault {
    ghost from_gives = { λ fault e. e ≡ of_order fault };

    fn from(fault: OrderError) -> CaseFault {
        match fault {
            OrderError::OutOfMemory => CaseFault::OutOfMemory,
            fault => CaseFault::Order(fault),
        }
    }
}

impl From<CaseError> for CaseFault {
    ghost from_gives = { λ fault e. e ≡ of_refusal fault };

    fn from(fault: CaseError) -> CaseFault {
        match fault {
            CaseError::OutOfMemory => CaseFault::OutOfMemory,
            fault => CaseFault::Refused(fault),
        }
    }
}
