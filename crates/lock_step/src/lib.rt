//! A whole case while the records of its logs are taken one by one, in turns, with no log in memory.
//!
//! It stands on `turn_taking` for turns, on `call_order` for the order of calls, on `case_book` for links, on `link_check`,
//! whose definitions say when a link is good and where it has its fault, on `bytes`, and on `erased` for what its clauses
//! speak of. [`LinkStates`] compares the ends of all links as turns are taken: what is found of a link by some turns is said
//! in `specs/Links.antt`. A [`CaseTurns`] takes each record for the order, for the calls and for the links at once; what was
//! taken is said in `specs/Taking.antt`. Both keep what is under way, and no record. `specs/Glue.antt` and `specs/Tied.antt`
//! describe the tables, for the code's contracts alone.
//!
//! The two ends of one link are compared by the frames that one end has and the other hasn't yet. A [`FrameQueue`] takes the
//! frames of one direction as they come, in either order; [`LinkQueues`] takes those of both, and finds what `link_check` finds
//! of the two logs. Frames are compared byte for byte. One that both ends have takes no memory, and once two differ, nothing
//! that comes later changes that or takes any ([`differences_stay`]). What a direction is, is said in `specs/Directions.antt`;
//! `specs/QueuedFrames.antt` describes what is kept, for the code's contracts alone.
#![tactic(auto)]

mod case_counts;
mod case_turns;
mod comparison;
mod frame_laws;
mod frame_queue;
mod laws;
mod link_end;
mod link_queues;
mod link_state;
mod link_states;
mod link_table;
mod waiting_frames;

pub use case_turns::CaseTurns;
pub use frame_laws::differences_stay;
pub use frame_queue::FrameQueue;
pub use laws::{links_are_on_their_connections, turns_are_records};
pub use link_end::LinkEnd;
pub use link_queues::LinkQueues;
pub use link_states::LinkStates;
