//! Why no more is read of a log.

use vat_log::ReadFault;

/// Why no more is read of a log.
#[derive(Clone, Copy, Debug, PartialEq, Eq)]
pub(crate) enum Ending {
    /// It was read to its end, and is whole.
    Whole,
    /// Its bytes have this fault, or can't be read.
    Fault(ReadFault),
}
