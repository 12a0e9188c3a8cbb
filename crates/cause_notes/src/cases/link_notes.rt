//! Frames that were received and not sent so.

use crate::cases::frame_fields::{ShownValue, put_field};
use crate::cases::frame_streams::{PassedFrame, Stream};
use crate::cases::link_shapes::{Direction, is_prefix};
use case_book::Findings;
use case_report::Report;
use past_records::{NoteText, ReadFrame, message_at};
use record_notes::{Logs, put_record};
use report_lines::Fault;
use rpc_view::ViewError;
use std::alloc::{AllocError, Global};
use vat_log::VatLog;

/// A message that a vat received, by its number among those that it received on the connection, counted from 0.
#[derive(Clone, Copy)]
pub(crate) struct Arrival {
    pub(crate) connection: u32,
    pub(crate) end: u32,
    pub(crate) message: u64,
}

impl Arrival {
    /// The message of this number at this end.
    pub(crate) fn new(connection: u32, end: u32, message: u64) -> Arrival {
        Arrival {
            connection,
            end,
            message,
        }
    }

    /// What is reported of a case on whose link it wasn't sent so.
    pub(crate) fn report(self) -> Report {
        Report::Link {
            connection: self.connection,
            end: self.end,
            message: self.message,
        }
    }
}

/// Appends the note of the first byte that differs.
fn put_byte(text: &mut NoteText, sent: &[u8], received: &[u8]) {
    let differs = (0..sent.len()).find(|at| sent.get(*at) != received.get(*at));
    let at = differs.unwrap_or(sent.len());
    match (sent.get(at), received.get(at)) {
        (Some(one), Some(other)) => {
            text.tell("note: the first byte that differs is #: ", &[at as u64]);
            text.tell_of("@ was sent, ", &ShownValue::Byte(*one), &[]);
            text.tell_of("@ received\n", &ShownValue::Byte(*other), &[]);
        }
        _ => text.note(
            "# bytes were sent and # received, alike up to the end of the shorter",
            &[sent.len() as u64, received.len() as u64],
        ),
    }
}

/// Appends the note of a frame that isn't read.
fn put_unread(text: &mut NoteText, word: &str, fault: ViewError) {
    text.tell_of("note: the frame that was @ isn't read: ", &word, &[]);
    text.tell_of("@\n", &Fault::from(fault), &[]);
}

/// Appends the notes of where two frames differ that say this, of which the first was sent.
fn put_difference(text: &mut NoteText, sent: &ReadFrame, received: &ReadFrame) {
    match (sent, received) {
        (Some(Ok(sent)), Some(Ok(received))) => put_field(text, sent, received),
        (Some(Err(fault)), _) => put_unread(text, "sent", *fault),
        (_, Some(Err(fault))) => put_unread(text, "received", *fault),
        _ => {}
    }
}

/// Appends the note of a record, where the name of its log is kept.
fn put_named(text: &mut NoteText, logs: &Logs<'_>, log: &VatLog, at: usize) {
    if let Some(name) = logs.name_of(log.vat()) {
        put_record(text, name, log, at);
    }
}

/// Appends the notes of the last frame that was sent, where no more were.
fn put_end(text: &mut NoteText, logs: &Logs<'_>, sent: &Stream<'_>) {
    let (vat, connection) = (u64::from(sent.log.vat()), u64::from(sent.connection));
    let records = sent.log.len() as u64;
    match sent.frames.last() {
        Some(last) => {
            let message = sent.frames.len().saturating_sub(1) as u64;
            let sentence =
                "the last that vat # sent on connection # is message #: its log of # records ends without another";
            text.note(sentence, &[vat, connection, message, records]);
            put_named(text, logs, sent.log, last.at);
        }
        None => text.note(
            "vat # sent nothing on connection #: its log of # records ends without",
            &[vat, connection, records],
        ),
    }
}

/// Appends the note of where a frame stands in one stream that passed under this number in the other, if it is there just once.
fn put_same(
    text: &mut NoteText,
    stream: &Stream<'_>,
    other: &Stream<'_>,
    message: u64,
    sentence: &str,
) {
    if let Some((same, at)) = stream.same_as(other, message as usize) {
        text.tell(sentence, &[message, u64::from(stream.log.vat())]);
        text.tell(" as message #, by record #\n", &[same as u64, at as u64]);
    }
}

/// Appends the notes of where the same bytes stand that were received, or sent, under this number.
fn put_alike(text: &mut NoteText, direction: &Direction<'_>, message: u64) {
    let Direction { sent, received } = direction;
    let sentence = "note: the bytes that were received as message # are those that vat # sent";
    put_same(text, sent, received, message, sentence);
    let sentence = "note: the bytes that were sent as message # are those that vat # received";
    put_same(text, received, sent, message, sentence);
}

/// Appends the note of the record by which a vat received a message of a connection.
pub(crate) fn put_received(text: &mut NoteText, logs: &Logs<'_>, arrival: Arrival) {
    let connection = arrival.connection;
    if let Some(log) = text.found(logs.of_vat(text.alloc(), arrival.end))
        && let Some(stream) = text.granted(Stream::of(text.alloc(), &log, false, connection))
        && let Some(received) = stream.frames.get(arrival.message as usize)
    {
        put_named(text, logs, &log, received.at);
    }
}

/// Appends the note of what a log sent on another connection, where it is what was received on this one, and more than one frame.
fn put_if_crossed(text: &mut NoteText, log: &VatLog, connection: u32, received: &Stream<'_>) {
    let came = received.frames.as_slice();
    if let Some(sent) = text.granted(Stream::of(text.alloc(), log, true, connection))
        && came.len() > 1
        && is_prefix(came, sent.frames.as_slice())
    {
        let vats = (received.log.vat(), log.vat());
        text.note(
            "what vat # received on connection # is what vat # sent on connection #: their numbers may be crossed",
            &[vats.0, received.connection, vats.1, connection].map(u64::from),
        );
    }
}

/// Appends the notes of what others sent on other connections, where it is what was received on this one.
fn put_crossed(text: &mut NoteText, findings: &Findings, received: &Stream<'_>) {
    for link in findings.links() {
        let connection = link.connection();
        for log in [link.first(), link.second()] {
            if connection != received.connection && log.vat() != received.log.vat() {
                put_if_crossed(text, log, connection, received);
            }
        }
    }
}

/// Appends the notes of what was sent as this message, and where that differs from what was received.
fn put_both(text: &mut NoteText, logs: &Logs<'_>, direction: &Direction<'_>, message: usize) {
    let Direction { sent, received } = direction;
    match (sent.frames.get(message), received.frames.get(message)) {
        (Some(one), Some(other)) => {
            put_named(text, logs, sent.log, one.at);
            put_byte(text, one.frame.as_slice(), other.frame.as_slice());
            let one = text.found(message_at(text.alloc(), sent.log, one.at));
            let other = text.found(message_at(text.alloc(), received.log, other.at));
            put_difference(text, &one, &other);
        }
        (None, Some(_)) => put_end(text, logs, sent),
        _ => {}
    }
}

/// What the other end of a connection sent, and what this one received, where a case has the connection.
fn direction_of(
    alloc: Global,
    findings: &Findings,
    arrival: Arrival,
) -> Result<Option<Direction<'_>>, AllocError> {
    let connection = arrival.connection;
    let mut links = findings.links().iter();
    let Some(link) = links.find(|link| link.connection() == connection) else {
        return Ok(None);
    };
    let (receiver, sender) = if link.first().vat() == arrival.end {
        (link.first(), link.second())
    } else {
        (link.second(), link.first())
    };
    let sent = Stream::of(alloc, sender, true, connection)?;
    let received = Stream::of(alloc, receiver, false, connection)?;
    Ok(Some(Direction { sent, received }))
}

/// Appends the notes of what the other end sent as this message, where the two differ, and what befell the frames from there on.
pub(crate) fn put_counterpart(text: &mut NoteText, logs: &Logs<'_>, arrival: Arrival) {
    let message = arrival.message as usize;
    if let Some(findings) = logs.findings
        && let Some(direction) = text.found(direction_of(text.alloc(), findings, arrival))
    {
        put_both(text, logs, &direction, message);
        if !direction.put_befallen(text, message) {
            put_alike(text, &direction, arrival.message);
            put_crossed(text, findings, &direction.received);
        }
    }
}
