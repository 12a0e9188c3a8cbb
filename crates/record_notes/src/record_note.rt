//! The note of one record.

use crate::kept_logs::Logs;
use past_records::{NoteText, message_of, put_reason_of};
use report_lines::{Answer, Fault, NumberedRecord};
use rpc_view::Edition;
use std::alloc::{AllocError, Global};
use vat_log::{Record, VatLog};
use vat_rules::edition_of;

/// What a record says, as it is shown.
fn shown_record<'a>(
    alloc: Global,
    at: usize,
    stored: &'a Record,
    edition: Edition,
) -> Result<NumberedRecord<'a>, AllocError> {
    let message = match message_of(alloc, stored, edition)? {
        Some(Ok(message)) => Some(Answer::Message(message)),
        Some(Err(fault)) => Some(Answer::Fault(Fault::from(fault))),
        None => None,
    };
    Ok(NumberedRecord {
        at,
        body: stored.body(),
        message,
    })
}

/// Appends the note of a record, read by an edition: the name of its log, its line of `records`, and the reason of its exception.
pub fn put_stored(text: &mut NoteText, name: &str, at: usize, stored: &Record, edition: Edition) {
    if let Some(shown) = text.granted(shown_record(text.alloc(), at, stored, edition)) {
        text.file("note: ", name, ": record ");
        text.shown(&shown);
    }
    put_reason_of(text, stored, " reason ");
    text.words("\n");
}

/// Appends the note of the record of this number, read as its log is judged.
pub fn put_record(text: &mut NoteText, name: &str, log: &VatLog, at: usize) {
    if let Some(stored) = log.get(at) {
        put_stored(text, name, at, stored, edition_of(log));
    }
}

/// Appends the note of a record of a vat, where its log is kept.
pub fn put_place(text: &mut NoteText, logs: &Logs<'_>, vat: u32, at: usize) {
    if let Some(name) = logs.name_of(vat)
        && let Some(log) = text.found(logs.of_vat(text.alloc(), vat))
    {
        put_record(text, name, &log, at);
    }
}
