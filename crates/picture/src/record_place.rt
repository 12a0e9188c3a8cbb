//! Places.

/// A record of a vat.
#[derive(Clone, Copy, PartialEq, Eq)]
pub struct Place {
    /// The vat.
    pub vat: u32,
    /// The record's number in its log, counted from 0.
    pub number: usize,
}
