//! Two ends of a connection: the frames that one vat received are to be a prefix, byte for byte, of those that the other
//! sent.
//!
//! It stands on `vat_log`, and on `bytes` for its frames. What a good link is, and the least fault of another, is said in
//! `specs/Prefix.antt`; a link has one outcome by it, and [`check_link`] finds that one. Nothing here allocates; the only
//! refusal is an `Arc` with too many owners to count.
#![tactic(auto)]

mod connection_frames;
mod link_finding;
mod link_outcome;

pub use link_finding::{LinkFinding, check_link};
pub use link_outcome::LinkOutcome;
