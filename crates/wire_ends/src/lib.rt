//! The two ends of a connection, as they are made up around the frames that were captured: what each of them could have done
//! between its frames, and the logs that say so.
//!
//! It stands on `wire_plan`, which tells what each file says when all of it is looked at, and on `vat_log`. What is made up is
//! judged by the audit, and nothing is claimed of it here but this: the frames that a log sends are those of its end's file
//! from the first one on, and those that it receives are the other file's; and a log that is called full is so.
#![tactic(auto)]

mod blame;
mod both_ends;
mod end_tables;
mod made_calls;
mod made_logs;
mod queue;
mod second_references;
mod vat;

pub use blame::Blame;
pub use made_logs::{MadeLogs, Making, make_logs};
