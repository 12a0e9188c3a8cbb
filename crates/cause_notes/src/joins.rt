//! The notes beside what is answered of logs whose connections are joined.

use bytes::Bytes;
use log_ends::LogEnd;
use past_records::NoteText;

/// What people are told beside what is answered of logs whose connections are joined.
#[derive(Clone, Copy)]
pub enum JoinNote {
    /// These two were alike, and each was paired by its place.
    Alike(LogEnd, LogEnd),
    /// No end is left for this one.
    Unmatched(LogEnd),
    /// Several ends fit this one.
    Ambiguous(LogEnd),
}

/// Appends words that end with a connection, and the name of the file that has its log.
fn put_end(text: &mut NoteText, words: &str, files: &[(String, Bytes)], end: LogEnd) {
    text.tell(words, &[u64::from(end.connection)]);
    if let Some((name, _)) = files.get(end.log) {
        text.file(" of ", name.as_str(), "");
    }
}

/// The notes of what was found of ends.
pub(crate) fn put_join(text: &mut NoteText, files: &[(String, Bytes)], note: JoinNote) {
    match note {
        JoinNote::Alike(first, second) => {
            put_end(text, "note: connection #", files, first);
            put_end(text, " and connection #", files, second);
            text.words(" are alike in both directions: such are paired in the order in which ");
            text.words("the logs are listed\n");
        }
        JoinNote::Unmatched(end) => {
            let words = "note: no other log's connection fits, or is left for, connection #";
            put_end(text, words, files, end);
            text.words(": each end must have received the first frames that the other sent\n");
        }
        JoinNote::Ambiguous(end) => {
            let words = "note: connections that differ fit connection #";
            put_end(text, words, files, end);
            text.words(": it received too little to tell which is the other end\n");
        }
    }
}
