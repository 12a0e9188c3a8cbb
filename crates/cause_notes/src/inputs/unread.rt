//! Files that can't be read, and those that are there in their place.

use crate::inputs::file_kind::{FileKind, kind_of};
use case_files::RememberingSource;
use past_records::NoteText;
use std::alloc::{AllocError, Global};
use std::io::ErrorKind;

/// A source that can look whether a file is there which it wasn't asked for.
pub trait SearchingSource: RememberingSource {
    /// Whether there is a file under this name. Where that can't be told there is none.
    fn has(&self, name: &str) -> bool;
}

/// Appends the note of the log of a recorder that stopped, where it is there in the place of this one, under another name.
fn put_stopped<S: SearchingSource>(text: &mut NoteText, source: &S, name: &str) {
    let alloc = text.alloc();
    if let Some(stopped) = text.granted(format!(in alloc; "{name}.stopped"))
        && source.has(stopped.as_str())
    {
        let words =
            " is there: its recorder stopped before its vat did, and said why on standard error\n";
        text.file("note: ", stopped.as_str(), words);
    }
}

/// The folder of the case file, which is read first, where one was read and its name says one: what stands before the last `/`.
fn case_folder<S: SearchingSource>(alloc: Global, source: &S) -> Result<Option<&str>, AllocError> {
    let Some((name, bytes)) = source.kept().first() else {
        return Ok(None);
    };
    match name.as_str().rsplit_once('/') {
        Some((folder, _)) if !folder.is_empty() => {
            let is_case = kind_of(alloc, bytes.as_slice())? == FileKind::Case;
            Ok(is_case.then_some(folder))
        }
        _ => Ok(None),
    }
}

/// Appends the note of a file that a case file names, where it would be found from the folder of the case file.
fn put_beside<S: SearchingSource>(text: &mut NoteText, source: &S, name: &str) {
    let alloc = text.alloc();
    if let Some(folder) = text.found(case_folder(alloc, source))
        && let Some(beside) = text.granted(format!(in alloc; "{folder}/{name}"))
        && !name.starts_with('/')
        && source.has(beside.as_str())
    {
        let words = " is there: the names in a case file start in the folder ";
        text.file("note: ", beside.as_str(), words);
        text.file("in which vataudit runs, so run it in ", folder, "\n");
    }
}

/// Appends the notes of the file that was asked for last and can't be read: the system's reason, and which file is there instead.
pub(crate) fn put_unread<S: SearchingSource>(text: &mut NoteText, source: &S) {
    let Some(name) = source.last() else {
        return;
    };
    let why = source.refusal();
    text.file("note: cannot read ", name, "");
    if let Some(why) = why {
        text.tell_of(": @", why, &[]);
    }
    text.words("\n");
    if why.is_some_and(|why| why.kind() == ErrorKind::NotFound) {
        put_stopped(text, source, name);
        put_beside(text, source, name);
    }
}
