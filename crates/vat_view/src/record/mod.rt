//! What one record binds and introduces, by the tables before it, and what it may settle.

pub(crate) mod bindings;
pub(crate) mod introduced;
pub(crate) mod unsettled;
