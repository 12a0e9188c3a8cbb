//! Messages whose calls came in the other order.

use crate::end::End;

/// Two messages of an end whose calls were delivered in the other order: they were made through two references then.
#[derive(Clone, Copy, Debug, PartialEq, Eq)]
pub struct Overtaking {
    /// Who sent them.
    pub end: End,
    /// The number of the one that was sent first, among the frames of its file, counted from 0.
    pub earlier: u64,
    /// The number of the one whose call was delivered first.
    pub later: u64,
    /// How many more calls of this end were delivered before one that was made earlier.
    pub others: u64,
}
