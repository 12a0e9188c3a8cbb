//! The steps of one end of a connection, and its log: what it does between its frames is told by the steps, and the frames are
//! taken from the two files.
//!
//! It stands on `vat_log`, and on `link_check` for the frames that a log sends and receives. What the log has of the two files
//! is said in `specs/Parts.antt`: whatever the steps are, the frames that it sends are those of the own file from the first one
//! on, those that it receives are the other file's, and there are no others. [`log_of`] promises it.
#![tactic(auto)]

mod end_log;
mod end_steps;

pub use end_log::{EarlyEnd, EndLog, NextMessage, NoRoom, log_of};
pub use end_steps::{EndStep, Steps};
