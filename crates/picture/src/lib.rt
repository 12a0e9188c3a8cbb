//! A picture of a conversation: a column for each vat, a row for each record, and an arrow for each message.
//!
//! It stands on `case_report`, whose report a picture is drawn for, on `report_lines`, whose texts stand in it, on
//! `case_book`, `merge_order`, `run_model`, `vat_log`, `rpc_view` and `exception_reasons`. It opens no file. Where records
//! stand is said in `specs/Places.antt`, which calls end in `specs/Endings.antt`, rows and arrows in `specs/Rows.antt`, the words
//! of a row in `specs/Labels.antt` and `specs/ReasonText.antt`, and what is drawn of all that in `specs/Picture.antt`: [`draw`]
//! makes just these rows and arrows, and a [`Picture`] is shown as just that text.
//! The Returns that it draws as late are those of the audit, by `vat_rules` and `vat_view`
//! ([`late_returns_are_the_audits`]).
#![tactic(auto)]

mod arrow;
mod breaks;
mod call_makers;
mod columns;
mod drawing;
mod focus;
mod label;
mod laws;
mod order;
mod page;
mod passing;
mod reason_text;
mod record_place;
mod row;
mod scene;
mod svg;
mod vat_logs;
mod window;

pub use arrow::{Arrow, Reach, Stroke};
pub use columns::Column;
pub use drawing::{Picture, draw};
pub use laws::{late_returns_are_the_audits, reasons_make_no_tags};
pub use order::arranging::arrange;
pub use page::text_of;
pub use record_place::Place;
pub use row::{Row, Tone};
pub use window::{Asked, Gap, Window, limit_of};
