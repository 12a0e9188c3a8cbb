//! The commands, one a file, with what they ask of their source and what they say. `graph`, `run` and `draw` have the report of
//! a case in common (judged_case.rt), of which `check` has the line alone. An error of what says an answer is that of a write,
//! behind which nothing is written.

pub(crate) mod check;
pub(crate) mod draw_case;
pub(crate) mod frame_list;
pub(crate) mod graph;
pub(crate) mod hex_frame;
pub(crate) mod join_logs;
pub(crate) mod judged_case;
pub(crate) mod log_records;
pub(crate) mod log_salvage;
pub(crate) mod make_order;
pub(crate) mod migrate_log;
pub(crate) mod next_frame;
pub(crate) mod run_steps;
pub(crate) mod vat_audit;
pub(crate) mod wire_files;
