//! The notes beside an answer that is good.

use crate::answer_notes::case_of;
use crate::heard::Heard;
use bytes::Bytes;
use case_book::Case;
use exception_reasons::record_reason;
use past_records::{NoteText, ReadFrame, message_at, put_reason};
use record_notes::{OpenCase, events_of, log_of, open_object, put_good};
use rpc_view::{Loopback, RpcMessage};
use std::alloc::{AllocError, Global};
use std::collections::BTreeSet;
use vat_log::VatLog;

/// What people are told beside an answer.
#[derive(Drop)]
pub struct Notes {
    /// The notes, a line each.
    pub text: String,
    /// All that is open at the end of good logs, as an object, where it is asked for.
    pub left_open: Option<String>,
}

impl Notes {
    /// These notes alone.
    pub fn of_text(text: String) -> Notes {
        let left_open = None;
        Notes { text, left_open }
    }
}

/// What notes are made for.
#[derive(Clone, Copy)]
pub enum Form {
    /// Lines of text.
    Text,
    /// An object, in which all that is open stands, too.
    Json,
}

/// Whether a frame is an abort.
fn is_abort(read: &ReadFrame) -> bool {
    matches!(read, Some(Ok(RpcMessage::Abort)))
}

/// Whether a frame is a senderLoopback.
fn asks_echo(read: &ReadFrame) -> bool {
    match read {
        Some(Ok(RpcMessage::Disembargo { loopback, .. })) => *loopback == Loopback::Sender,
        _ => false,
    }
}

/// Whether the record of this number sends a frame or receives one, and on which connection.
pub(crate) fn passage_at(log: &VatLog, at: usize) -> Option<(bool, u32)> {
    log.get(at)?.body().passage()
}

/// The first record by which a log sent an abort, and its connection. Only the last frame that a connection sends can be one.
fn abort_in(alloc: Global, log: &VatLog) -> Result<Option<(usize, u32)>, AllocError> {
    let mut seen = BTreeSet::new(alloc);
    let mut first = None;
    for at in (0..log.len()).rev() {
        if let Some((true, connection)) = passage_at(log, at)
            && seen.insert(connection)?
            && is_abort(&message_at(alloc, log, at)?)
        {
            first = Some((at, connection));
        }
    }
    Ok(first)
}

/// Whether the reason of an abort is that a loopback is refused: C++ gives the test that failed, or names the message.
fn refuses_loopback(alloc: Global, log: &VatLog, at: usize) -> Result<bool, AllocError> {
    let Some(stored) = log.get(at) else {
        return Ok(false);
    };
    let Some(reason) = record_reason(alloc, stored.body())? else {
        return Ok(false);
    };
    let shown = format!(in alloc; "{reason}")?;
    let shown = shown.as_str();
    Ok(shown.contains("target->getBrand()") || shown.contains("Disembargo"))
}

/// The last record before an abort that received a senderLoopback on its connection.
fn loopback_before(
    alloc: Global,
    log: &VatLog,
    (end, connection): (usize, u32),
) -> Result<Option<usize>, AllocError> {
    for at in (0..end).rev() {
        let is_received = passage_at(log, at) == Some((false, connection));
        if is_received && asks_echo(&message_at(alloc, log, at)?) {
            return Ok(Some(at));
        }
    }
    Ok(None)
}

/// Appends the notes of the first abort that this log sent, if it sent one, and says whether it did. Where the abort refuses a
/// loopback, the log is good, so the loopback's target led back to its sender: rule EMB asks that.
fn put_abort(text: &mut NoteText, log: &VatLog) -> bool {
    let Some(abort) = text.found(abort_in(text.alloc(), log)) else {
        return false;
    };
    let (at, connection) = abort;
    let numbers = [u64::from(log.vat()), u64::from(connection), at as u64];
    text.tell("note: vat # aborted connection # by record #", &numbers);
    put_reason(text, log, at, ": ");
    text.words("\n");
    if text.granted(refuses_loopback(text.alloc(), log, at)) == Some(true)
        && let Some(asked) = text.found(loopback_before(text.alloc(), log, abort))
    {
        let sentence =
            "it refuses a loopback whose target led back to its sender, by the records before: its record # received that one";
        text.note(sentence, &[asked as u64]);
    }
    true
}

/// Appends the notes of the first vat of a case that aborted a connection, if one did.
fn put_first_abort(text: &mut NoteText, case: &Case) {
    for log in case.logs() {
        if put_abort(text, log) {
            return;
        }
    }
}

/// Appends the notes of what is open at the end of a case whose report is yes, or of a log that is good; and gives it, where it is
/// asked for. Nothing is told of a case that can't be put together any more.
fn put_case(
    text: &mut NoteText,
    sought: Result<Option<OpenCase<'_>>, AllocError>,
    form: Form,
) -> Option<String> {
    let case = text.found(sought)?;
    put_good(text, &case);
    match form {
        Form::Text => None,
        Form::Json => text.granted(open_object(&case)),
    }
}

/// The same of the log that was read last and is good. It is read once more: its audit kept no record.
pub(crate) fn put_last_log(
    text: &mut NoteText,
    files: &[(String, Bytes)],
    form: Form,
) -> Option<String> {
    let (_, bytes) = files.last()?;
    let log = text.found(log_of(text.alloc(), bytes))?;
    let events = text.found(events_of(text.alloc(), &log))?;
    let case = OpenCase::of_log(text.alloc(), &log, events.as_slice(), files);
    put_case(text, case, form)
}

/// The same of a case whose report is yes and of which nothing is kept but its files.
fn put_kept(text: &mut NoteText, files: &[(String, Bytes)], form: Form) -> Option<String> {
    let case = text.found(case_of(text.alloc(), files))?;
    put_first_abort(text, &case);
    let open = OpenCase::of_case(text.alloc(), &case, files);
    put_case(text, open, form)
}

/// The same of the case whose report was heard, if one was.
pub(crate) fn put_yes(
    text: &mut NoteText,
    heard: &Heard,
    files: &[(String, Bytes)],
    form: Form,
) -> Option<String> {
    match &heard.findings {
        Some(findings) => {
            put_first_abort(text, findings.case());
            let open = OpenCase::of_findings(text.alloc(), findings, files);
            put_case(text, open, form)
        }
        None if heard.is_of_case => put_kept(text, files, form),
        None => None,
    }
}
