//! The steps of a run, line by line.

ghost use Rattle.std.specs.Prelude.{◌≡◌, ◌≤◌, ◌⊎◌, OnOk};
ghost use Rattle.authority.specs.Records.{record_numbers_of};
ghost use Rattle.command_run.specs.CommandAnswers.{AnswersReportOf, IsOutOfMemory};
ghost use Rattle.command_run.specs.Glue.{Prints};
ghost use Rattle.command_run.specs.ReportAnswers.{AnswersRun, ShowsSteps, step_lines};
ghost use Rattle.command_run.specs.Runs.{Adds, Wrote};

use crate::answering::say;
use crate::commands::judged_case::case_report;
use crate::hearing::Hears;
use crate::host::Host;
use crate::output::Output;
use crate::watch::Watch;
use authority::record_numbers;
use case_files::Source;
use case_report::Report;
use report_lines::{Answer, Fault, NumberedStep, ShownLine};
use run_model::Run;
use std::alloc::Global;
use std::sync::Wait;
use std::thread::Threads;

/// Writes the lines of the steps of a run, whose records have these numbers. More may follow.
fn put_steps<O: Output>(run: &Run, numbers: &[u64], out: &mut O) -> Result<(), O::Error>
    requires numbers { numbers.now ≡ record_numbers_of run.now }
    requires out { O.can_write out.old }
    ensures lines { OnOk result (Adds O.contents out.old (step_lines run.now) out.new) }
    ensures more { OnOk result (O.can_write out.new) }
{
    for (at, step) in run.steps().iter().enumerate() {
        let shown = NumberedStep {
            at,
            record: numbers[at],
            step,
        };
        out.write_line(ShownLine::Step(shown))?;
    }
    Ok(())
}

/// Says the steps of a run, or that memory ran out.
fn say_steps<O: Output, H: Hears>(
    alloc: Global,
    run: &Run,
    heard: &mut H,
    out: &mut O,
) -> Result<u8, O::Error>
    requires { O.can_write out.old }
    ensures { Prints (λ text status. ShowsSteps run.now text status ⊎ IsOutOfMemory text status)
        (Wrote O.contents O.is_finished) out.old out.new result }
{
    let Ok(numbers) = record_numbers(alloc, run) else {
        return say(Answer::Fault(Fault::OutOfMemory), heard, out);
    };
    put_steps(run, &numbers, out)?;
    out.finish()?;
    Ok(0)
}

/// Audits the case that a source has under a name, by so many workers, and says the steps of its run, where the report is yes, a line each;
/// else it says the report.
pub fn say_run<R: Threads + Wait + Sync, G: Watch + Sync, S: Source, O: Output, H: Hears>(
    host: &Host<'_, R, G>,
    name: &str,
    workers: u32,
    source: &mut S,
    heard: &mut H,
    out: &mut O,
) -> Result<u8, O::Error>
    requires some { 1 ≤ workers }
    requires few { workers ≤ 64 }
    requires out { O.can_write out.old }
    ensures { Prints (AnswersReportOf AnswersRun S.read_gives source.old name.now source.new)
        (Wrote O.contents O.is_finished) out.old out.new result }
{
    let report = match case_report(host, name, workers, source, heard) {
        Ok(report) => report,
        Err(fault) => return say(Answer::Fault(fault), heard, out),
    };
    match report {
        Report::Yes { run, .. } => say_steps(host.alloc, &run, heard, out),
        report => say(Answer::Report(report), heard, out),
    }
}
