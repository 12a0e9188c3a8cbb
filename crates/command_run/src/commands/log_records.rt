//! The records of a log, line by line.

ghost use Rattle.std.specs.Prelude.{◌≡◌, [], IfOk, OnOk};
ghost use Rattle.byte_pieces.specs.Coming.{ComesOn};
ghost use Rattle.case_files.specs.CaseReading.{Read};
ghost use Rattle.report_lines.specs.Lines.{line};
ghost use Rattle.report_lines.specs.RecordText.{record_text};
ghost use Rattle.vat_log.specs.Runs.{BeginsWith};
ghost use Rattle.command_run.specs.CommandAnswers.{AnswersLogRecords};
ghost use Rattle.command_run.specs.Glue.{ListingEndsSo, Lists, Prints, is_chosen, status_behind, text_behind};
ghost use Rattle.command_run.specs.RecordAnswers.{record_line};
ghost use Rattle.command_run.specs.Runs.{Adds, Wrote};

use crate::answering::say;
use crate::commands::hex_frame::answer_of_bytes;
use crate::hearing::Hears;
use crate::output::Output;
use byte_pieces::Pieces;
use case_files::Source;
use report_lines::{Answer, Fault, NumberedRecord, ShownLine};
use rpc_view::Edition;
use std::alloc::{AllocError, Global};
use vat_log::{Body, LogStream, ReadFault, Record};
use vat_rules::edition_of_header;

/// Which records of a log are asked for.
#[derive(Clone, Copy)]
pub struct RecordRange {
    /// The number of the first one, counted from 0; the log's first where there is none.
    pub from: Option<u64>,
    /// How many; all that follow where there is none.
    pub count: Option<u64>,
}

impl RecordRange {
    /// Whether the record of this number is asked for.
    fn has(self, number: usize) -> bool
        ensures { result ≡ is_chosen self.from self.count number }
    {
        let first = self.from.unwrap_or(0) as usize;
        match self.count {
            None => first <= number,
            Some(many) => first <= number && number - first < many as usize,
        }
    }
}

/// A record to be shown with its number, its frame read by an edition as `frame` reads it.
pub fn numbered<'a>(
    alloc: Global,
    at: usize,
    event: &'a Record,
    edition: Edition,
) -> Result<NumberedRecord<'a>, AllocError>
    ensures { IfOk result
        (λ shown. line (record_text shown.at shown.body.now shown.message)
        ≡ record_line edition at event.now) }
{
    let body = event.body();
    let message = match body {
        Body::Send { frame, .. } | Body::Receive { frame, .. } => {
            Some(answer_of_bytes(alloc, frame.clone()?, edition)?)
        }
        _ => None,
    };
    Ok(NumberedRecord { at, body, message })
}

/// Writes the line of a record. More may follow.
fn put_numbered<O: Output>(shown: NumberedRecord<'_>, out: &mut O) -> Result<(), O::Error>
    requires { O.can_write out.old }
    ensures line { OnOk result
        (Adds O.contents out.old
        (line (record_text shown.entry.at shown.entry.body.now shown.entry.message)) out.new) }
    ensures more { OnOk result (O.can_write out.new) }
{
    out.write_line(ShownLine::Record(&shown))
}

/// Lists the records that are asked for of a log of which only the header was read, their frames read by the log's edition: to
/// its end, or why not. Each is written as soon as it is read, and none is kept; those that aren't asked for are read, too.
fn list_stream<P: Pieces, O: Output>(
    alloc: Global,
    stream: &mut LogStream<P>,
    range: RecordRange,
    out: &mut O,
) -> Result<Result<(), ReadFault>, O::Error>
    requires out { O.can_write out.old }
    requires begun { BeginsWith stream.old.came.bytes stream.old.log }
    requires none { stream.old.log.records ≡ [] }
    ensures on { ComesOn stream.old.came stream.new.came }
    ensures lines { Lists range.from range.count (Adds O.contents) stream.new out.old out.new result }
    ensures more { OnOk result (O.can_write out.new) }
{
    let edition = edition_of_header(stream.header());
    loop {
        let number = stream.given();
        match stream.next(alloc) {
            Ok(Some(event)) => {
                if range.has(number) {
                    let Ok(shown) = numbered(alloc, number, &event, edition) else {
                        return Ok(Err(ReadFault::OutOfMemory));
                    };
                    put_numbered(shown, out)?;
                }
            }
            Ok(None) => return Ok(Ok(())),
            Err(fault) => return Ok(Err(fault)),
        }
    }
}

/// Ends the reading of a log that was listed to its end, or why not: what is to be said behind the lines, if anything is.
fn ended<S: Source>(
    source: &mut S,
    name: &str,
    reader: &S::Reader,
    listed: Result<(), ReadFault>,
) -> Result<(), Fault>
    ensures { (read : Read) × S.read_gives source.old name.now read source.new
        × ListingEndsSo read listed (S.Reader.so_far reader.now) result }
{
    let cannot_read = matches!(listed, Err(ReadFault::CannotRead));
    source.close(name, reader, cannot_read)?;
    match listed {
        Ok(()) => Ok(()),
        Err(ReadFault::Bad(fault)) => Err(Fault::from(fault)),
        Err(ReadFault::CannotRead) => Err(Fault::CannotRead),
        Err(ReadFault::OutOfMemory) => Err(Fault::OutOfMemory),
    }
}

/// Ends the lines of a log: by why it wasn't listed to its end, or by none more.
fn say_end<O: Output, H: Hears>(
    ended: Result<(), Fault>,
    heard: &mut H,
    out: &mut O,
) -> Result<u8, O::Error>
    requires { O.can_write out.old }
    ensures status { IfOk result (λ status. status ≡ status_behind ended) }
    ensures line { OnOk result (Wrote O.contents O.is_finished out.old (text_behind ended) out.new) }
{
    match ended {
        Ok(()) => {
            out.finish()?;
            Ok(0)
        }
        Err(fault) => say(Answer::Fault(fault), heard, out),
    }
}

/// Says the records that are asked for of the log that a source has under a name, each as soon as it is read; of the log a
/// window alone is kept. Where the log's bytes have a fault, or they can't be read to their end, that is said behind the records
/// in front of it; where no log begins so, that is said alone. The log is read to its end or its fault also where fewer records
/// are asked for: the exit status is 0 where it is whole, whatever its frames are. Where memory runs out that is said in a last
/// line.
pub fn say_records<S: Source, O: Output, H: Hears>(
    alloc: Global,
    name: &str,
    range: RecordRange,
    source: &mut S,
    heard: &mut H,
    out: &mut O,
) -> Result<u8, O::Error>
    requires { O.can_write out.old }
    ensures { (read : Read) × S.read_gives source.old name.now read source.new
        × Prints (AnswersLogRecords (S.holds source.old name.now) range.from range.count read)
        (Wrote O.contents O.is_finished) out.old out.new result }
{
    match LogStream::begin(alloc, source.open(name)) {
        Ok(mut stream) => match list_stream(alloc, &mut stream, range, out) {
            Ok(listed) => say_end(ended(source, name, stream.pieces(), listed), heard, out),
            Err(fault) => {
                let _ = source.close(name, stream.pieces(), false);
                Err(fault)
            }
        },
        Err((fault, reader)) => say_end(ended(source, name, &reader, Err(fault)), heard, out),
    }
}
