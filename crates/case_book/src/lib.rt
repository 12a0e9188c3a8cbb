//! Cases: the logs of several vats and the links between them, to be audited together, and the book of such an audit.
//!
//! It stands on `vat_log`, on `vat_rules`, which audits one log, and on `link_check`, which compares a link's ends. What a
//! case holds and what is refused is said in `specs/Case.antt`, when its logs and links tie up in `specs/Ties.antt`. Faults
//! name the least number of a list: `specs/Least.antt` says which that is, and the law [`least_is_least`] that it is the
//! least. [`Case::new`] takes just what is handed in, or refuses it with the first fault that is defined, and
//! [`Case::tie_fault`] is exactly the fault that is defined. Both are so of whatever stands for a log (a [`CaseLog`]), so that a
//! case can be made of what is left of logs once they were read.
//!
//! `specs/Pieces.antt` says which pieces a case has, and when a finding is for one; a finding is for one piece at most (the
//! law [`a_finding_is_for_one_piece`]). [`Case::find`] does the work of a piece. A [`Book`], of which `specs/Books.antt`
//! speaks, hands the pieces out and keeps one finding for each; a [`SharedBook`] is one that threads share. Memory is taken by
//! [`Case::copy`], [`Case::find`] and [`Book::new`] alone.
#![tactic(auto)]

mod book;
mod case;
mod case_log;
mod error;
mod findings;
mod laws;
mod link;
mod piece;
mod piece_finding;
mod places;
mod refused_findings;
mod rising;
mod shared;
mod ties;
mod work;

pub use book::Book;
pub use case::Case;
pub use case_log::{CaseLog, least_unlinked_of};
pub use error::CaseError;
pub use findings::Findings;
pub use laws::{a_finding_is_for_one_piece, least_is_least};
pub use link::Link;
pub use piece::Piece;
pub use piece_finding::Finding;
pub use refused_findings::Refused;
pub use rising::{MAX_LINKS, MAX_VATS, rising_links, rising_logs};
pub use shared::SharedBook;
pub use ties::{TieFault, tie_fault};
