//! The spelling of logs: kinds, fields and bodies of records, and whole logs, read and written.

pub(crate) mod body_reading;
pub(crate) mod body_writing;
pub(crate) mod fields;
pub(crate) mod kind;
pub(crate) mod log_limits;
pub(crate) mod storing;
