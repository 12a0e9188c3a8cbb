//! The object of a file that is no schema.

use crate::json_lines::put_notes;
use crate::json_text::{JsonText, NOTES};
use std::alloc::{AllocError, Global};

/// The text of the object that says that a file is no schema, with its notes, each a line behind the word `note`.
pub fn bad_schema_object(alloc: Global, file: &str, notes: &str) -> Result<String, AllocError> {
    let mut json = JsonText::new(alloc, None);
    json.begin("{");
    json.text_member("file", file);
    json.text_member("kind", "bad schema");
    if !notes.is_empty() {
        json.key(NOTES);
        put_notes(&mut json, notes);
    }
    json.end("}");
    json.into_text()
}
