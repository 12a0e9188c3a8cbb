//! Why something isn't done.

use vat_log::Record;

/// The lane has no room for this record, which is handed back: its ring is full, or it has recorded its share.
#[derive(Debug, Drop)]
pub struct Full(pub Record);

/// Why a tap isn't closed.
#[derive(Clone, Copy, Debug, PartialEq, Eq)]
pub enum CloseError {
    /// A lane of the tap isn't among those handed in.
    Missing,
    /// A growth of memory was refused.
    OutOfMemory,
}
