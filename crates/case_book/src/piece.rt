//! Pieces.

/// A piece of a case, by its number: first the audit of each vat within the default limits, by rising vat number, then the
/// comparison of each link, by rising connection.
#[derive(Clone, Copy, Debug, PartialEq, Eq)]
pub struct Piece {
    /// Its number, counted from 0.
    pub number: u32,
}
