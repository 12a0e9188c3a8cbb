//! Applying a record: what it changes in the tables.

pub(crate) mod apply_record;
pub(crate) mod calls;
pub(crate) mod tables;
