//! Where a run breaks the order of one vat's calls, found as the run goes on, by what isn't delivered yet.
//!
//! It stands on `erased` for the past that its clauses speak of, and on `run_model` for how places in a run are compared; the
//! lesser of two, which crates above ask for too, is said in `specs/Places.antt`.
//! What is told of a run is a [`Moment`] of the vat's calls: one is made, or one is delivered. Where calls through one
//! reference are delivered out of their order is said in `specs/Order.antt`, and an [`Undelivered`] finds the least such
//! place. A call that was delivered takes no memory. What a run tells of a vat's calls is said in `specs/OfRuns.antt`; that a
//! run breaks the order of calls just where it does by what it tells of one of its vats is a law
//! ([`runs_break_where_their_vats_do`]). `specs/Glue.antt` describes the tables, for the code's contracts alone.
#![tactic(auto)]

mod laws;
mod moment;
mod place_order;
mod undelivered;
mod wait_tables;
mod waits;

pub use laws::runs_break_where_their_vats_do;
pub use moment::Moment;
pub use place_order::lesser;
pub use undelivered::Undelivered;
