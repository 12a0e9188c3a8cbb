//! The answer to the log of a vat.

ghost use Rattle.case_files.specs.CaseReading.{Read};
ghost use Rattle.report_lines.specs.Lines.{answer_status, answer_text, line};
ghost use Rattle.command_run.specs.CommandAnswers.{AnswersSource};
ghost use Rattle.command_run.specs.Glue.{IsAudited, Prints, answer_of};
ghost use Rattle.command_run.specs.Runs.{Wrote};

use crate::answering::say;
use crate::hearing::Hears;
use crate::output::Output;
use case_files::Source;
use log_lane::audit_stream;
use report_lines::{Answer, Fault};
use std::alloc::Global;
use vat_log::{LogStream, ReadFault};
use vat_rules::SlimFinding;

/// Ends the reading of a log, of which this was found.
fn ended<S: Source>(
    source: &mut S,
    name: &str,
    reader: &S::Reader,
    found: Result<SlimFinding, ReadFault>,
) -> Result<SlimFinding, Fault>
    requires { IsAudited found (S.Reader.so_far reader.now) }
    ensures { (read : Read) × S.read_gives source.old name.now read source.new
        × AnswersSource read (line (answer_text (answer_of result)))
        (answer_status (answer_of result)) }
{
    let cannot_read = matches!(found, Err(ReadFault::CannotRead));
    source.close(name, reader, cannot_read)?;
    match found {
        Ok(finding) => Ok(finding),
        Err(ReadFault::Bad(fault)) => Err(Fault::from(fault)),
        Err(ReadFault::CannotRead) => Err(Fault::CannotRead),
        Err(ReadFault::OutOfMemory) => Err(Fault::OutOfMemory),
    }
}

/// What the audit of the log that a source has under a name finds, within the default limits. The log is judged as it is read.
fn finding<S: Source>(alloc: Global, source: &mut S, name: &str) -> Result<SlimFinding, Fault>
    ensures { (read : Read) × S.read_gives source.old name.now read source.new
        × AnswersSource read (line (answer_text (answer_of result)))
        (answer_status (answer_of result)) }
{
    match LogStream::begin(alloc, source.open(name)) {
        Ok(mut stream) => {
            let found = audit_stream(alloc, &mut stream);
            ended(source, name, stream.pieces(), found)
        }
        Err((fault, reader)) => ended(source, name, &reader, Err(fault)),
    }
}

/// Audits the log that a source has under a name, and says what was found.
pub fn say_vat<S: Source, O: Output, H: Hears>(
    alloc: Global,
    name: &str,
    source: &mut S,
    heard: &mut H,
    out: &mut O,
) -> Result<u8, O::Error>
    requires { O.can_write out.old }
    ensures { (read : Read) × S.read_gives source.old name.now read source.new
        × Prints (AnswersSource read) (Wrote O.contents O.is_finished) out.old out.new result }
{
    match finding(alloc, source, name) {
        Ok(finding) => say(Answer::Finding(finding), heard, out),
        Err(fault) => say(Answer::Fault(fault), heard, out),
    }
}
