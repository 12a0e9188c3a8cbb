//! What is answered of a case, and of the two files of a connection: types alone, so that what prints an answer needs
//! nothing of what finds it.
//!
//! It stands on `run_model`, whose run a yes shows, on `vat_rules`, whose rules a record breaks, on `wire_cut`, which names
//! the ends of a connection, and on `vat_log`, whose logs are made of two files. Which report a case has is said by
//! `audit_core`, and which line two files have by `wire_logs`.
#![tactic(auto)]

mod report;
mod wire_answer;
mod wire_line;

pub use report::{Breach, Report};
pub use wire_answer::{WireAnswer, WireLogs};
pub use wire_line::WireLine;
