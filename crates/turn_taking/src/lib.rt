//! Turns that vats take, each with the next record of its log, and one pass over the logs of a case that takes them.
//!
//! It stands on `erased` for the turns that its clauses speak of, on `vat_log`, and on `merge_order` for when an order fits
//! whole logs. What turns are, and when a record may come next, is said in `specs/Turns.antt`; a [`TurnsTaken`] answers it
//! from a few counts, with no log in memory. What turns tell of the orders of whole logs is said in `specs/Orders.antt`, and
//! is shown by the laws of `src/laws.rt`. `specs/Glue.antt` describes the tables, for the code's contracts alone.
//!
//! The pass reads the logs side by side, each some records ahead of what is taken of it (a [`CaseLane`], `specs/Lanes.antt`),
//! and whoever keeps the turns ([`Turns`], `specs/Turned.antt`) is told each. What holds of lanes and turns on the way is said
//! in `specs/Pass.antt`, what [`take_all`] and [`take_by_order`] have read in the end in `specs/WholeCase.antt`.
//! `specs/Followed.antt` is for the code's contracts alone.
#![tactic(auto)]

mod by_order;
mod case_lane;
mod frame_counts;
mod lane_laws;
mod lane_turns;
mod laws;
mod pass_tables;
mod rounds;
mod steps;
mod turns_taken;
mod vat_counts;
mod whole;

pub use by_order::take_by_order;
pub use case_lane::{CaseLane, Turns};
pub use lane_laws::{empty_lanes_took_all, held_lanes_are_stuck};
pub use lane_turns::take_from;
pub use laws::{
    least_order_exists, stuck_turns_have_no_order, turns_begin_an_order, turns_make_an_order,
};
pub use rounds::take_round;
pub use steps::take_in_step;
pub use turns_taken::TurnsTaken;
pub use whole::take_all;
