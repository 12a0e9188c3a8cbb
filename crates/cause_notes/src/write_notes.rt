//! Writes that fail.

use past_records::NoteText;
use std::alloc::{AllocError, Global};
use std::fmt::Write;
use std::io::{self, ErrorKind};

/// The note of a write that failed, with the system's reason and the name of the file, where it went to one. There is none
/// where the reader has gone: whoever closes a pipe has read enough.
pub fn write_note(
    alloc: Global,
    name: Option<&str>,
    error: &io::Error,
) -> Result<String, AllocError> {
    let mut text = NoteText::new(alloc);
    if error.kind() != ErrorKind::BrokenPipe {
        match name {
            Some(name) => text.file("note: cannot write ", name, ""),
            None => text.words("note: cannot write to standard output"),
        }
        text.tell_of(": @\n", error, &[]);
    }
    text.finish()
}
