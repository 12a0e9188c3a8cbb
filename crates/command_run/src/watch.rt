//! What watches a case that is audited. No answer depends on it.

use audit_core::Gate;

/// What is told how far the audit of a case has come: of its beginning here, and of each piece as a gate.
pub trait Watch: Gate {
    /// A case of so many logs and links, which is kept, is about to be audited; its pieces are numbered so, the logs first. Of one
    /// that is judged while it is read this isn't told.
    fn begins(&self, logs: usize, links: usize);
}

/// What watches nothing, and lets no worker wait.
pub struct Unwatched;

impl Gate for Unwatched {
    fn before_post(&self, _piece: u32) {}
}

impl Watch for Unwatched {
    fn begins(&self, _logs: usize, _links: usize) {}
}
