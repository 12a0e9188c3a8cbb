//! Commands, run with what people are told besides: notes, names and reasons, and lines as JSON objects.
//!
//! It stands on `command_run`, which runs a command and has its answers heard, on `cause_notes`, which makes notes of what was
//! heard, on `json_lines`, which makes objects of lines, and on `named_text` and `exception_reasons`, whose names and reasons
//! stand in lines. [`run_with_notes`] does what [`run_on`](command_run::run_on) does, and tells people more of it besides, on a
//! writer of its own: what it tells is in no contract. [`run_telling`] tells names and reasons in the lines, too; [`run_as_json`]
//! tells each line as an object, and [`run_as_json_with_notes`] the notes in the last one.
#![tactic(auto)]

mod json_run;
mod note_hearing;
mod noted_run;
mod told_lines;

pub use json_run::{JsonOutput, run_as_json, run_as_json_with_notes};
pub use noted_run::{NotedSource, run_with_notes};
pub use told_lines::{Telling, ToldLines, run_telling};
