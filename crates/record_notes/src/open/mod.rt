//! What is open at the end of the logs of a case.

mod call_ways;
pub(crate) mod good_notes;
pub(crate) mod object;
pub(crate) mod open_case;
mod open_log;
mod under_way;
