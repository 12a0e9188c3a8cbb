//! The note beside a picture of fewer rows than were asked for.

use past_records::NoteText;

/// How many rows were asked for, and how many are drawn at most, which is fewer.
#[derive(Clone, Copy)]
pub struct RowLimit {
    /// How many were asked for.
    pub asked: u64,
    /// How many are drawn at most.
    pub most: u64,
}

/// The note of it, if there is one.
pub(crate) fn put_limit(text: &mut NoteText, limit: Option<RowLimit>) {
    if let Some(RowLimit { asked, most }) = limit {
        let sentence = "--count # asks for more rows than are drawn at most: #";
        text.note(sentence, &[asked, most]);
    }
}
