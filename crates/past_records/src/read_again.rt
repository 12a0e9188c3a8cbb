//! The records of a log, with their frames read.

use crate::note_text::NoteText;
use exception_reasons::record_reason;
use rpc_view::{Edition, Limits, RpcMessage, ViewError, read_bytes};
use std::alloc::{AllocError, Global};
use vat_log::{Record, VatLog};
use vat_rules::edition_of;
use vat_view::DecodedRecord;

/// What a frame says, or why it isn't read. None where there is no frame.
pub type ReadFrame = Option<Result<RpcMessage, ViewError>>;

/// What the frame of a record says.
pub fn message_of(
    alloc: Global,
    stored: &Record,
    edition: Edition,
) -> Result<ReadFrame, AllocError> {
    let Some(frame) = stored.body().frame() else {
        return Ok(None);
    };
    match read_bytes(alloc, frame.clone()?, Limits::default(), edition) {
        Ok(message) => Ok(Some(Ok(message))),
        Err(ViewError::OutOfMemory) => Err(AllocError),
        Err(fault) => Ok(Some(Err(fault))),
    }
}

/// What the frame of the record of this number says.
pub fn message_at(alloc: Global, log: &VatLog, at: usize) -> Result<ReadFrame, AllocError> {
    match log.get(at) {
        Some(stored) => message_of(alloc, stored, edition_of(log)),
        None => Ok(None),
    }
}

/// A record as it is judged. None where its frame isn't read.
pub fn decoded_as(
    alloc: Global,
    stored: &Record,
    edition: Edition,
) -> Result<Option<DecodedRecord>, AllocError> {
    match DecodedRecord::read(alloc, stored.body(), Limits::default(), edition) {
        Ok(event) => Ok(Some(event)),
        Err(ViewError::OutOfMemory) => Err(AllocError),
        Err(_) => Ok(None),
    }
}

/// The record of this number as it is judged. None where its frame isn't read, or there is none.
pub fn decoded(
    alloc: Global,
    log: &VatLog,
    at: usize,
) -> Result<Option<DecodedRecord>, AllocError> {
    match log.get(at) {
        Some(stored) => decoded_as(alloc, stored, edition_of(log)),
        None => Ok(None),
    }
}

/// Appends the reason that a record gives, behind these words; nothing where it gives none.
pub fn put_reason_of(text: &mut NoteText, stored: &Record, words: &str) {
    if let Some(reason) = text.found(record_reason(text.alloc(), stored.body())) {
        text.words(words);
        text.tell_of("\"@\"", &reason, &[]);
    }
}

/// Appends the reason that the record of this number gives, behind these words; nothing where it gives none.
pub fn put_reason(text: &mut NoteText, log: &VatLog, at: usize, words: &str) {
    if let Some(stored) = log.get(at) {
        put_reason_of(text, stored, words);
    }
}
