//! Lines as JSON objects: what each line says, under names that docs/FORMATS.md lists.
//!
//! It stands on `report_lines`, which shows the same values as text, and on `serde_json`, which quotes texts. What is
//! written as a line of standard output is a [`ShownLine`](report_lines::ShownLine); its object is made from the value and never from the text, and written as it goes to a
//! [`JsonText`], which remembers that memory was refused. [`JsonLines`] writes objects and holds the last one back, so that notes
//! can be added to it. That each text can be made again from its object is tested
//! (`tests/json_lines.py`), and said by no contract.
#![tactic(auto)]

mod answer_object;
mod fault_object;
mod json_lines;
mod json_text;
mod message_object;
mod record_object;
mod run_object;
mod schema_object;
mod wire_object;

pub use json_lines::{JsonFault, JsonLines, OUT_OF_MEMORY};
pub use json_text::JsonText;
pub use schema_object::bad_schema_object;
