//! The text of a record, without an end of line: its number, its kind, and each of its fields behind its name
//! (docs/FORMATS.md).

ghost use Rattle.std.specs.Prelude.{Some, codes, ◌++◌};
ghost use Rattle.std.specs.Fmt.{WritesOnOk, decimal};
ghost use Rattle.std.specs.List.{join_by};
ghost use Rattle.report_lines.specs.RecordText.{answered_text, body_text, noted_call_text, noted_references, noted_text, record_text};

use crate::answer::Answer;
use crate::message_text::Interface;
use crate::shown::Shown;
use cap_frame::Path;
use std::fmt::{self, Display, Formatter};
use vat_log::{Body, References};

/// References with a comma between each two.
impl Display for Shown<&[u64]> {
    ghost output = { λ references. Some (join_by decimal (codes ",") references.0.now) };

    fn fmt<W: fmt::Write>(&self, f: &mut Formatter<W>) -> fmt::Result {
        let mut between = "";
        for reference in self.0 {
            write!(f, "{between}{reference}")?;
            between = ",";
        }
        Ok(())
    }
}

/// The capabilities in the results of a call, with a semicolon between each two.
impl Display for Shown<&[(u64, Path)]> {
    ghost output = { λ results. Some (join_by answered_text (codes ";") results.0.now) };

    fn fmt<W: fmt::Write>(&self, f: &mut Formatter<W>) -> fmt::Result {
        let mut between = "";
        for (reference, path) in self.0 {
            write!(f, "{between}{}={reference}", Shown(path))?;
            between = ";";
        }
        Ok(())
    }
}

/// The call that is noted beside a frame, or 0.
#[derive(Clone, Copy)]
struct NotedCall(u64);

impl Display for NotedCall {
    ghost output = { λ call. Some (noted_call_text call.0) };

    fn fmt<W: fmt::Write>(&self, f: &mut Formatter<W>) -> fmt::Result {
        match self.0 {
            0 => Ok(()),
            call => write!(f, " call {call}"),
        }
    }
}

/// The references that are noted beside a frame.
#[derive(Clone, Copy)]
struct NotedReferences<'a>(&'a [u64]);

impl Display for NotedReferences<'_> {
    ghost output = { λ references. Some (noted_references references.0.now) };

    fn fmt<W: fmt::Write>(&self, f: &mut Formatter<W>) -> fmt::Result {
        match self.0 {
            [] => Ok(()),
            references => write!(f, " references [{}]", Shown(references)),
        }
    }
}

/// What is noted beside a frame.
#[derive(Clone, Copy)]
struct Noted<'a> {
    connection: u32,
    call: u64,
    references: &'a [u64],
}

impl Display for Noted<'_> {
    ghost output = { λ noted. Some (noted_text noted.connection noted.call noted.references.now) };

    fn fmt<W: fmt::Write>(&self, f: &mut Formatter<W>) -> fmt::Result {
        let (call, references) = (NotedCall(self.call), NotedReferences(self.references));
        write!(f, " connection {}{call}{references}", self.connection)
    }
}

/// Writes what is noted beside a frame, behind the word for the frame's record.
fn put_noted<W: fmt::Write>(
    f: &mut Formatter<W>,
    word: &str,
    connection: u32,
    call: u64,
    references: &References,
) -> fmt::Result
    ensures { WritesOnOk W.write_str_gives f.old result
        (word.now ++ noted_text connection call references.now) f.new }
{
    let noted = Noted {
        connection,
        call,
        references: references.as_slice(),
    };
    write!(f, "{word}{noted}")
}

/// Writes a MAKE: its call, where that goes, and what it calls there.
fn put_make<W: fmt::Write>(
    f: &mut Formatter<W>,
    call: u64,
    reference: u64,
    interface: u64,
    method: u16,
) -> fmt::Result
    ensures { WritesOnOk W.write_str_gives f.old result
        (body_text (Body.Make call reference interface method)) f.new }
{
    let interface = Interface(interface);
    write!(
        f,
        "make call {call} reference {reference} interface {interface} method {method}"
    )
}

/// Writes a FIELD: its reference, and of which call's results it is which.
fn put_field<W: fmt::Write>(
    f: &mut Formatter<W>,
    reference: u64,
    call: u64,
    path: &Path,
) -> fmt::Result
    ensures { WritesOnOk W.write_str_gives f.old result
        (body_text (Body.Field reference call path.now)) f.new }
{
    write!(
        f,
        "field reference {reference} call {call} path {}",
        Shown(path)
    )
}

/// What a record says, but for its frame.
impl Display for Shown<&Body> {
    ghost output = { λ said. Some (body_text said.0.now) };

    fn fmt<W: fmt::Write>(&self, f: &mut Formatter<W>) -> fmt::Result {
        match self.0 {
            Body::Host { reference, object } => {
                write!(f, "host reference {reference} object {object}")
            }
            Body::Vow { reference } => write!(f, "vow reference {reference}"),
            Body::Fulfil { reference, to } => write!(f, "fulfil reference {reference} to {to}"),
            Body::Break { reference } => write!(f, "break reference {reference}"),
            Body::Make {
                call,
                reference,
                interface,
                method,
            } => put_make(f, *call, *reference, *interface, *method),
            Body::Field {
                reference,
                call,
                path,
            } => put_field(f, *reference, *call, path),
            Body::Deliver { call, object } => write!(f, "deliver call {call} object {object}"),
            Body::Answer { call, results } => {
                let results = Shown(results.as_slice());
                write!(f, "answer call {call} results [{results}]")
            }
            Body::Fault { call } => write!(f, "fault call {call}"),
            Body::Send {
                connection,
                call,
                references,
                ..
            } => put_noted(f, "send", *connection, *call, references),
            Body::Receive {
                connection,
                call,
                references,
                ..
            } => put_noted(f, "receive", *connection, *call, references),
            Body::AnswerBy { call, by } => write!(f, "answerby call {call} by {by}"),
        }
    }
}

/// A record of a log, to be shown as its line (docs/FORMATS.md), without the line's end.
#[derive(Drop)]
pub struct NumberedRecord<'a> {
    /// The record's number in its log, counted from 0.
    pub at: usize,
    /// What the record says.
    pub body: &'a Body,
    /// What is answered to its frame, where it has one.
    pub message: Option<Answer>,
}

impl Display for NumberedRecord<'_> {
    ghost output = { λ numbered. Some (record_text numbered.at numbered.body.now numbered.message) };

    fn fmt<W: fmt::Write>(&self, f: &mut Formatter<W>) -> fmt::Result {
        let (at, body) = (self.at, Shown(self.body));
        match &self.message {
            None => write!(f, "{at} {body}"),
            Some(message) => write!(f, "{at} {body} {message}"),
        }
    }
}
