//! What each of two files tells by itself, when all of it is looked at: which Return answers which question, which Return
//! takes the results of which call, which introductions of a promise belong together and what it becomes, and which paths
//! of a call's results are named.
//!
//! It stands on `rpc_view`, which reads the messages. Here they are kept in a short form: a path is a number, a call's
//! content a digest. Nothing is judged; what a plan says of unsound files is found out by the audit of the logs that are
//! made by it.
#![tactic(auto)]

mod content;
mod frame_ties;
mod groups;
mod keyed_lists;
mod led_back;
mod message;
mod paths;
mod plan;
mod reading;

pub use frame_ties::Ties;
pub use groups::Groups;
pub use message::{Aim, Entry, Kind, Named, Planned, PlannedCall, PlannedReturn, ReturnKind};
pub use paths::Paths;
pub use plan::{FilePlan, WirePlan, plan_wire};
