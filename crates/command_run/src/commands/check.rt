//! The report of a case, without its run.

ghost use Rattle.std.specs.Prelude.{◌≡◌, ◌≤◌};
ghost use Rattle.command_run.specs.CommandAnswers.{AnswersReportOf};
ghost use Rattle.command_run.specs.Glue.{ComesAsLine, Prints};
ghost use Rattle.command_run.specs.ReportAnswers.{AnswersReport};
ghost use Rattle.command_run.specs.Runs.{Wrote};

use crate::answering::say;
use crate::hearing::Hears;
use crate::host::Host;
use crate::output::Output;
use crate::watch::Watch;
use case_files::Source;
use case_report::Report;
use case_streams::check_files;
use report_lines::{Answer, Fault};
use std::thread::Threads;

/// The line of the report of the case that a source has under a name, by the order that its file names, if it names one: so
/// many workers audit it, the calling thread among them. That a case was read, of which none is kept, is heard.
///
/// # Errors
///
/// The case's first fault, or out of memory.
fn case_line<R: Threads + Sync, G: Watch, S: Source, H: Hears>(
    host: &Host<'_, R, G>,
    name: &str,
    workers: u32,
    source: &mut S,
    heard: &mut H,
) -> Result<Report, Fault>
    requires some { 1 ≤ workers }
    requires few { workers ≤ 64 }
    ensures { ComesAsLine S.read_gives source.old name.now result source.new }
{
    let line = check_files(host.rt, host.alloc, source, name, workers)?;
    heard.hear_case();
    Ok(line)
}

/// Audits the case that a source has under a name, by so many workers, and says the report.
pub fn say_report<R: Threads + Sync, G: Watch, S: Source, O: Output, H: Hears>(
    host: &Host<'_, R, G>,
    name: &str,
    workers: u32,
    source: &mut S,
    heard: &mut H,
    out: &mut O,
) -> Result<u8, O::Error>
    requires some { 1 ≤ workers }
    requires few { workers ≤ 64 }
    requires out { O.can_write out.old }
    ensures { Prints (AnswersReportOf AnswersReport S.read_gives source.old name.now source.new)
        (Wrote O.contents O.is_finished) out.old out.new result }
{
    match case_line(host, name, workers, source, heard) {
        Ok(report) => say(Answer::Report(report), heard, out),
        Err(fault) => say(Answer::Fault(fault), heard, out),
    }
}
