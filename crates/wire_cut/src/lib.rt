//! The two ends of one connection, the frames that they sent, cut out of the bytes that were captured, what a message may
//! lack before it is sent, and which messages came in the other order.
//!
//! It stands on `cap_frame`, which says how long the frame is that stands first, and on `bytes`, from which frames are cut
//! without copying.
#![tactic(auto)]

mod cut;
mod end;
mod lack;
mod overtaking;
mod table;

pub use cut::{CutFault, WireFile, cut_frames};
pub use end::End;
pub use lack::{Lack, Waiting};
pub use overtaking::Overtaking;
