//! Where lives of numbers began.

/// Where a life of an export or import number began.
#[derive(Clone, Copy)]
pub struct Origin {
    /// The number of the record in the log, counted from 0.
    pub number: usize,
    /// The place of the descriptor in the record's table, counted from 0.
    pub place: usize,
    /// Whether that descriptor is a senderPromise.
    pub promised: bool,
    /// The reference noted for that descriptor, if there is one.
    pub reference: Option<u64>,
}
