//! What is called while a case is audited.

/// What each worker calls once it has looked at a piece, a log or a link, and just before it posts what it found, where that
/// is posted: it may wait there for others.
pub trait Gate {
    /// A worker has looked at the piece of this number.
    fn before_post(&self, piece: u32);
}
