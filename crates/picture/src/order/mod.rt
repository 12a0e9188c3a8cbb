//! The order in which the records of a case are drawn.

pub(crate) mod arranging;
pub(crate) mod flow;
pub(crate) mod positions;
mod seat;
