//! A log in another version: its bytes go to a file, and then it is said.

ghost use Rattle.std.specs.Prelude.{◌≡◌, Ok, IfOk, IfErr, option_map};
ghost use Rattle.vat_log.specs.Log.{Log};
ghost use Rattle.vat_log.specs.Reading.{Fails, log_of};
ghost use Rattle.case_files.specs.CaseReading.{Read};
ghost use Rattle.report_lines.specs.Lines.{answer_status, answer_text, line};
ghost use Rattle.command_run.specs.CommandAnswers.{AnswersMigration};
ghost use Rattle.command_run.specs.Glue.{Migrates};
ghost use Rattle.command_run.specs.MigrationAnswers.{migrated_log};
ghost use Rattle.command_run.specs.Runs.{Writes, Wrote};

use crate::answering::{FileAnswer, say_made};
use crate::hearing::Hears;
use crate::output::{Failed, Output};
use bytes::Bytes;
use case_files::Source;
use report_lines::{Answer, Fault};
use std::alloc::Global;
use vat_log::{LogError, SpelledLog, migrate_bytes, raise_bytes};

/// The log that is made of the one that these bytes spell: of version 3 where the later edition is asked for, or else one
/// that is judged alike.
fn made_of(alloc: Global, bytes: Bytes, later: bool) -> Result<SpelledLog, LogError>
    ensures made { IfOk result (λ made. (log : Log) × (log_of bytes ≡ Ok log) × (made ≡ migrated_log later log)) }
    ensures err { IfErr result (λ e. Fails e (log_of bytes)) }
{
    if later {
        raise_bytes(alloc, bytes)
    } else {
        migrate_bytes(alloc, bytes)
    }
}

/// What is made of the log that a source has under a name, or the log's first fault.
fn migration<S: Source>(
    alloc: Global,
    source: &mut S,
    name: &str,
    later: bool,
) -> Result<FileAnswer, Fault>
    ensures { (read : Read) × S.read_gives source.old name.now read source.new
        × Migrates later read result }
{
    let bytes = source.read(name)?;
    let log = made_of(alloc, bytes, later)?;
    let bytes = log.bytes().clone()?;
    Ok(FileAnswer {
        answer: Answer::Migrated(log),
        bytes: Some(bytes),
    })
}

/// The answer to the log that a source has under a name: the log that is made of it, or its first fault.
fn migration_answer<S: Source>(alloc: Global, source: &mut S, name: &str, later: bool) -> FileAnswer
    ensures { (read : Read) × S.read_gives source.old name.now read source.new
        × AnswersMigration later read (line (answer_text result.answer)) (answer_status result.answer)
        (option_map (λ bytes. bytes) result.bytes) }
{
    match migration(alloc, source, name, later) {
        Ok(made) => made,
        Err(fault) => FileAnswer::of_fault(fault),
    }
}

/// Makes another log of the one that a source has under a name, with the same vat and records: in version 3 where the later
/// edition is asked for, or else in version 2 where the log is of version 1, and as it is where it isn't. Writes it to
/// `file`, and then says how many records it has; or says the log's first fault.
pub fn say_migrated<S: Source, O: Output, F: Output, H: Hears>(
    alloc: Global,
    name: &str,
    later: bool,
    source: &mut S,
    heard: &mut H,
    out: &mut O,
    file: &mut F,
) -> Result<u8, Failed<O::Error, F::Error>>
    requires out { O.can_write out.old }
    requires file { F.can_write file.old }
    ensures { (read : Read) × S.read_gives source.old name.now read source.new
        × Writes (AnswersMigration later read) (Wrote O.contents O.is_finished)
        (Wrote F.contents F.is_finished) out.old out.new file.old file.new result }
{
    let made = migration_answer(alloc, source, name, later);
    say_made(made, heard, out, file)
}
