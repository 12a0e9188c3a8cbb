//! The audit of a log that keeps none of its records.

pub mod finding;
pub mod story;
pub mod tally;
pub mod vat_audit;
