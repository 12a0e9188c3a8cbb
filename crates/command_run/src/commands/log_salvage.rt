//! What is whole of a log: its bytes go to a file, and then it is said.

ghost use Rattle.std.specs.Prelude.{◌≡◌, option_map};
ghost use Rattle.case_files.specs.CaseReading.{Read};
ghost use Rattle.report_lines.specs.Lines.{answer_status, answer_text, line};
ghost use Rattle.command_run.specs.CommandAnswers.{AnswersSalvage};
ghost use Rattle.command_run.specs.Glue.{Salvages};
ghost use Rattle.command_run.specs.Runs.{Writes, Wrote};

use crate::answering::{FileAnswer, say_made};
use crate::hearing::Hears;
use crate::output::{Failed, Output};
use case_files::Source;
use report_lines::{Answer, Fault};
use std::alloc::Global;
use vat_log::salvage_log;

/// What is whole of the log that a source has under a name, or the fault by which no log begins.
fn salvage<S: Source>(alloc: Global, source: &mut S, name: &str) -> Result<FileAnswer, Fault>
    ensures { (read : Read) × S.read_gives source.old name.now read source.new
        × Salvages read result }
{
    let bytes = source.read(name)?;
    let found = salvage_log(alloc, bytes)?;
    let bytes = found.log.bytes().clone()?;
    Ok(FileAnswer {
        answer: Answer::Salvaged(found),
        bytes: Some(bytes),
    })
}

/// The answer to the log that a source has under a name: what is whole of it, or the fault by which no log begins.
fn salvage_answer<S: Source>(alloc: Global, source: &mut S, name: &str) -> FileAnswer
    ensures { (read : Read) × S.read_gives source.old name.now read source.new
        × AnswersSalvage read (line (answer_text result.answer)) (answer_status result.answer)
        (option_map (λ bytes. bytes) result.bytes) }
{
    match salvage(alloc, source, name) {
        Ok(made) => made,
        Err(fault) => FileAnswer::of_fault(fault),
    }
}

/// Writes the log of the longest run of whole records with which the log begins that a source has under a name to `file`, and
/// then says how many records and bytes it has; or says the fault by which no log begins.
pub fn say_salvaged<S: Source, O: Output, F: Output, H: Hears>(
    alloc: Global,
    name: &str,
    source: &mut S,
    heard: &mut H,
    out: &mut O,
    file: &mut F,
) -> Result<u8, Failed<O::Error, F::Error>>
    requires out { O.can_write out.old }
    requires file { F.can_write file.old }
    ensures { (read : Read) × S.read_gives source.old name.now read source.new
        × Writes (AnswersSalvage read) (Wrote O.contents O.is_finished)
        (Wrote F.contents F.is_finished) out.old out.new file.old file.new result }
{
    let made = salvage_answer(alloc, source, name);
    say_made(made, heard, out, file)
}
