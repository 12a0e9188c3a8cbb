//! What the numbers of one log stand for, by looking back over its records.
//!
//! It stands on `decoded_records`, the records with their messages read, which has most of the definitions by which
//! this crate answers; on `number_tables` and `rising_table` for its tables; and on `rpc_view`, `vat_log` and
//! `cap_frame` for what a record has in it. A point of a log is the list of the records before it, the newest first.
//! Here are said, by it: where views turn, and where that leads (`specs/Walks.antt`); which imports came in
//! (`specs/Arrivals.antt`); and over which connections views are reached, and which were aborted
//! (`specs/Connections.antt`). What holds of all logs by these definitions is promised by the functions of
//! `src/laws.rt`, which do nothing.
#![tactic(auto)]

mod apply;
mod laws;
mod lookups;
mod preconditions;
mod record;
mod state;
mod tables;
mod walks;

pub use decoded_records::{
    BorrowedView, DecodedRecord, Number, Request, TableKey, View, descriptors_of,
};
pub use laws::{
    a_life_is_resolved_once, a_promise_is_kept_once, bound_references_have_views, ends_are_one,
    leads_are_one, no_more_goes, numbers_keep_views, objects_stay, ones_are_classes,
    openings_are_closed_once, references_keep_views, turns_go_to_references, turns_only_grow,
};
pub use state::VatState;
