//! A whole case: frames that differ, calls that overtake, what was found of its other logs.

mod embargo_cause;
mod frame_fields;
mod frame_streams;
pub(crate) mod link_notes;
mod link_shapes;
pub(crate) mod order_cause;
pub(crate) mod other_findings;
