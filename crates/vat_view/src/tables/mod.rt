//! The tables that are kept of a log beside those of `number_tables`: references, connections, what came in; what
//! waits, and what turned. And all of them together.

pub(crate) mod all_tables;
pub(crate) mod arrivals;
pub(crate) mod connections;
pub(crate) mod references;
pub(crate) mod turns;
pub(crate) mod waits;
