//! The audit of a case in one pass over its logs, none of which is kept.
//!
//! It stands on `log_lane`, which reads each log some records ahead, judges it, and keeps what is left of it in the end, on
//! `turn_taking`, which takes the records of all logs in turns, on `lock_step`, which keeps what is under way, and on
//! `audit_core`, whose report it answers. [`check_streams`] answers the line of a report of the case that the logs that came
//! make, without the run (`specs/Streamed.antt`). `specs/Glue.antt` is for the code's contracts alone.
#![tactic(auto)]

mod checking;
mod error;
mod first_lines;
mod nothing;
mod reading_in_turns;

pub use checking::check_streams;
pub use error::StreamError;
