//! The ends of connections in logs whose numbers were given apart: which end of one log is the other end of which of another.
//!
//! A server that listens can't know which number its client gave the connection. What each end sent and received tells it.
//! [`join_ends`] compares that and finds the pairs, and [`renumbered_logs`] gives each pair a number of its own. It stands on
//! `vat_log`, and on `link_check` for the frames that a log sends and receives on a connection. When two ends fit is said in
//! `specs/Ends.antt`, which are paired or refused in `specs/Joining.antt`, and what the new logs are in
//! `specs/Renumbering.antt`.
#![tactic(auto)]

mod joining;
mod laws;
mod likeness;
mod log_end;
mod passages;
mod renumbering;
mod sequences;

pub use joining::{Joining, join_ends};
pub use laws::{a_number_is_of_one_pair, ends_are_joined_in_one_way, joined_logs_have_good_links};
pub use likeness::alike_ends;
pub use log_end::{EndPair, LogEnd};
pub use renumbering::{renumbered_logs, vat_of};
