//! Cases, read from their files.
//!
//! It stands on `case_book`, `merge_order` and `vat_log`, on `serde_json`, which reads the case file as JSON, and on
//! `thiserror`, which derives `SourceError`. It opens no file and says no line: a `Source` gives bytes by name, and a
//! `ReadCase` or a `CaseFault` goes out. What bytes say as a case file stands in `specs/CaseFile.antt`, what comes of a
//! case by its name in `specs/CaseReading.antt`; [`read_case`] is exactly that, where memory doesn't run out. [`written_case`]
//! and [`link_case`] write case files, and [`file_names`] names the logs that stand beside one. A
//! [`FileList`] is a source whose reading is look-up (`specs/LookUp.antt`); a [`RememberingSource`] also tells what was read
//! from it, for people.
#![tactic(auto)]

mod case_fault;
mod case_file;
mod case_reading;
mod case_text;
mod file_list;
mod folder_names;
mod listed_reader;
mod source;

pub use case_fault::CaseFault;
pub use case_file::CaseFile;
pub use case_reading::{ReadCase, read_case, read_case_file, read_log_list};
pub use case_text::{link_case, written_case};
pub use file_list::FileList;
pub use folder_names::{CASE_FILE, file_names};
pub use listed_reader::ListedReader;
pub use source::{RememberingSource, Source, SourceError};
