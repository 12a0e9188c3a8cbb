//! The machine of level 1: what calls, answers and capabilities do in one run of all vats, as if there were no wire.
//!
//! It stands on `cap_frame` for its paths, and on nothing of the logs. A run is a list of steps, each of one vat
//! ([`Step`]). It has no question, export or import number, no count, no table, no embargo and no byte: a call and a
//! capability have one name for all vats ([`Name`], [`Cap`]). What a run means is said of a step and the steps before it,
//! the newest first (`specs/Steps.antt`): where capabilities lead (`specs/Leads.antt`), which of them a vat has
//! (`specs/Has.antt`), where a call is (`specs/Places.antt`), when a step is legal (`specs/Legal.antt`), when it sends only
//! what is led to (`specs/Led.antt`), what links carry
//! and when a call is under way (`specs/Links.antt`, `specs/UnderWay.antt`), what is promised of a run
//! (`specs/Right.antt`, `specs/Early.antt`), which capabilities of others a vat came to have (`specs/Edges.antt`), and when
//! two runs are of the same steps (`specs/Reordered.antt`).
//! [`StepNumbers`] counts the steps of each vat, for the crates above (`specs/StepNumbers.antt`).
//! What holds of runs by these definitions is promised by the functions of `src/laws.rt`, which do nothing.
//! `proofs/OneTailCall.antt` and `proofs/OneCallPassedBack.antt` are examples of runs.
#![tactic(auto)]

mod cap;
mod caps;
mod laws;
mod message;
mod name;
mod plain;
mod results;
mod run;
mod step;
mod step_numbers;

pub use cap::Cap;
pub use caps::Caps;
pub use laws::{
    a_call_arrives_once, a_call_has_one_place, a_call_is_somewhere, a_run_has_one_fault,
    calls_come_from_their_makers, calls_reach_their_objects, leads_are_transitive, objects_stay,
    orders_break_alike, runs_are_ordered_unless_early, turns_go_one_way, turns_only_grow,
    what_comes_once, what_is_foreign_was_brought, what_is_had_stays_had,
    what_is_received_is_led_to, what_is_received_was_led_to, what_is_received_was_sent,
};
pub use message::Message;
pub use name::Name;
pub use plain::Plain;
pub use results::Results;
pub use run::Run;
pub use step::{Step, vat_of};
pub use step_numbers::StepNumbers;
