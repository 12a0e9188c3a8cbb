//! The messages of a file of frames.

use bytes::Bytes;
use cap_frame::Frame;
use past_records::NoteText;
use report_lines::{Answer, Fault};
use rpc_view::{Edition, Limits, ViewError, read_bytes};
use std::alloc::{AllocError, Global};

/// The bytes of a file from the message of this number on, counted from 0; or all that is left where there is none.
fn from_message(bytes: &Bytes, number: u64) -> Result<Bytes, AllocError> {
    let mut rest = bytes.clone()?;
    for _ in 0..number {
        let Ok(len) = Frame::first_len(rest.as_slice()) else {
            break;
        };
        let _frame = rest.split_to(len)?;
    }
    Ok(rest)
}

/// At which byte the message of this number begins.
pub(super) fn place_of(bytes: &Bytes, number: u64) -> Result<usize, AllocError> {
    let rest = from_message(bytes, number)?;
    Ok(bytes.len().saturating_sub(rest.len()))
}

/// What the message of this number says, or why it isn't read. None where there is none.
fn answer_of(alloc: Global, bytes: &Bytes, number: u64) -> Result<Option<Answer>, AllocError> {
    let mut rest = from_message(bytes, number)?;
    let Ok(len) = Frame::first_len(rest.as_slice()) else {
        return Ok(None);
    };
    let frame = rest.split_to(len)?;
    match read_bytes(alloc, frame, Limits::default(), Edition::Later) {
        Ok(message) => Ok(Some(Answer::Message(message))),
        Err(ViewError::OutOfMemory) => Err(AllocError),
        Err(fault) => Ok(Some(Answer::Fault(Fault::from(fault)))),
    }
}

/// Appends the note of a message: its file, its number, and its line of `frame --later`. Gives why it isn't read, if it isn't.
pub(super) fn put_message(
    text: &mut NoteText,
    file: &(String, Bytes),
    number: u64,
) -> Option<Fault> {
    let answer = text.found(answer_of(text.alloc(), &file.1, number))?;
    text.file("note: ", file.0.as_str(), ": message ");
    text.tell_of("# @\n", &answer, &[number]);
    match answer {
        Answer::Fault(fault) => Some(fault),
        _ => None,
    }
}
