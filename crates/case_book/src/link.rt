//! Links.

/// A connection between two vats, by their numbers. Which end is named first doesn't matter.
#[derive(Clone, Copy, Debug, PartialEq, Eq)]
pub struct Link {
    /// The connection's number in both logs.
    pub connection: u32,
    /// The vat at one end.
    pub a: u32,
    /// The vat at the other end.
    pub b: u32,
}
