//! Edges.

use run_model::Cap;

/// A vat came to have a capability of another vat by one of its steps.
#[derive(Drop)]
pub struct Edge {
    /// Which vat.
    pub vat: u32,
    /// Which capability.
    pub cap: Cap,
    /// The first of its records that bound it, counted from 0.
    pub at_record: u64,
    /// The index of it among the capabilities that this record binds, counted from 0. A descriptor that gives none binds
    /// nothing, so this isn't the descriptor's index.
    pub bound_index: u64,
}
