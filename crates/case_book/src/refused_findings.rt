//! Findings that a book doesn't keep.

use crate::piece_finding::Finding;

/// Why a finding isn't kept: the first of these that applies. Each hands it back.
#[derive(Drop)]
pub enum Refused {
    /// It is for no piece of the case: the case has no such vat or link, or another log of it, or other limits than the
    /// default ones were set.
    Stranger(Finding),
    /// Its piece has a finding already.
    Double(Finding),
    /// Its piece wasn't claimed.
    Unclaimed(Finding),
}
