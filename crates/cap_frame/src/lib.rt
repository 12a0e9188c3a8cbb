//! Frames of the Cap'n Proto stream framing, cut into segments, and the paths that later layers name.
//!
//! It stands on `bytes` and `byteorder`. What a frame is, is said in `specs/Segments.antt`. [`Frame::read`] gives
//! exactly the segments that bytes spell, [`Frame::first_len`] how long the frame is that stands first. Nothing here
//! takes memory but [`Path::new`] and [`Path::from_slice`], for a path of more than four numbers, which its copies share.
#![tactic(auto)]

mod frame;
mod frame_error;
mod loads;
mod path;
mod table;

pub use frame::Frame;
pub use frame_error::FrameError;
pub use path::Path;
