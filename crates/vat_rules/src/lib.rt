//! The audit of one log: each record against the rules, by the records before it.
//!
//! It stands on `rpc_view`, which reads the frames, on `vat_log`, and on `vat_view`, which says what the numbers of a
//! log stand for and answers it by tables. The rules are sentences of `specs/OfCalls.antt`, `specs/OfCaps.antt`,
//! `specs/OfResults.antt`, `specs/OfPromises.antt` and `specs/OfConnections.antt`, and of `vat_view` where a state of
//! numbers asks for them itself; `specs/Rules.antt` lists
//! them in their order. The outcome of a log is said in `specs/First.antt` and `specs/Audit.antt`, and [`audit_vat`]
//! answers just that; a [`VatAudit`] takes the records of a log one after another, keeps none, and answers the same. Laws of good logs: each record turns only views that stay ([`good_records_turn_once`]), and each opening of a question has at most one Return and one Finish
//! ([`good_openings_are_closed_once`]). A log is read and judged by the edition of rpc.capnp that its version says
//! ([`edition_of`]), and one that is good by it is good by the later edition, and tells the same ([`good_logs_are_good`]).
#![tactic(auto)]

mod asked;
mod audit;
mod by_kind;
mod facts;
mod finding;
mod judge;
mod laws;
mod outcome;
mod rule;
mod rules;
mod slim;
mod taking;
mod why;

pub use audit::{audit_vat, edition_of, edition_of_header};
pub use facts::compact::RecordFacts;
pub use facts::story::Story;
pub use finding::VatFinding;
pub use laws::{
    earlier_logs_have_no_light_returns, good_logs_are_good, good_openings_are_closed_once,
    good_records_turn_once, later_edition_keeps_more, refused_logs_stay_refused,
};
pub use outcome::{Outcome, Why};
pub use rule::Rule;
pub use slim::finding::{SlimFinding, SlimOutcome};
pub use slim::story::SlimStory;
pub use slim::vat_audit::VatAudit;
