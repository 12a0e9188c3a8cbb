//! The picture of a case, or a page with it: its bytes go to a file, and then the report is said.

ghost use Rattle.std.specs.Prelude.{◌≤◌, IfOk, List, ℕ, Option, option_map};
ghost use Rattle.audit_core.specs.Report.{IsReport};
ghost use Rattle.report_lines.specs.Lines.{answer_status, answer_text, line};
ghost use Rattle.command_run.specs.DrawAnswers.{AnswersDraw, IsDrawing, IsRunFor};
ghost use Rattle.command_run.specs.Glue.{ComesDrawn};
ghost use Rattle.command_run.specs.Runs.{Writes, Wrote};

use crate::answering::{FileAnswer, say_made};
use crate::commands::judged_case::fault_of;
use crate::hearing::Hears;
use crate::host::Host;
use crate::output::{Failed, Output};
use crate::watch::Watch;
use audit_core::{audit_with_findings, run_of_findings};
use bytes::Bytes;
use case_book::Findings;
use case_files::{ReadCase, Source, read_case};
use case_report::{Breach, Report};
use picture::{Asked, arrange, draw, limit_of, text_of};
use report_lines::{Answer, Fault};
use run_model::Run;
use std::alloc::{AllocError, Global};
use std::sync::Wait;
use std::thread::Threads;

/// A run of the case of these findings, where their report names the order of calls; no steps where it doesn't.
fn run_for(alloc: Global, findings: &Findings, report: &Report) -> Result<Run, AllocError>
    requires { (given : Option (List ℕ)) × IsReport findings.now.case given report.now }
    ensures { IfOk result (λ run. IsRunFor findings.now.case.logs report.now run) }
{
    match report {
        Report::Vat {
            rule: Breach::Order,
            ..
        } => match run_of_findings(alloc, findings)? {
            Some(run) => Ok(run),
            None => unreachable!(),
        },
        _ => Ok(Run::new(Vec::new(alloc))),
    }
}

/// The bytes of the picture of a case whose records are drawn in this order.
fn picture_bytes(
    alloc: Global,
    findings: &Findings,
    order: &[u32],
    report: &Report,
    asked: Asked,
) -> Result<Bytes, AllocError>
    requires { (given : Option (List ℕ)) × IsReport findings.now.case given report.now }
    ensures { IfOk result (IsDrawing findings.now.case order.now report.now asked) }
{
    let run = run_for(alloc, findings, report)?;
    let picture = draw(alloc, findings.case(), order, report, run.steps(), asked)?;
    Ok(Bytes::from_string(text_of(alloc, &picture, asked.page)?)?)
}

/// The report of the case that a source has under a name, and its picture. What was found of its logs and links is heard,
/// where notes are to be made.
fn drawing<R: Threads + Wait + Sync, G: Watch + Sync, S: Source, H: Hears>(
    host: &Host<'_, R, G>,
    name: &str,
    workers: u32,
    asked: Asked,
    source: &mut S,
    heard: &mut H,
) -> Result<FileAnswer, Fault>
    requires some { 1 ≤ workers }
    requires few { workers ≤ 64 }
    ensures { ComesDrawn asked S.read_gives source.old name.now result source.new }
{
    let ReadCase { case, order } = read_case(host.alloc, source, name)?;
    host.watch.begins(case.logs().len(), case.links().len());
    let arranged = arrange(host.alloc, &case, order.as_ref())?;
    match audit_with_findings(host.rt, host.alloc, case, order, workers, host.watch) {
        Ok((report, findings)) => {
            let picture = picture_bytes(host.alloc, &findings, &arranged, &report, asked)?;
            heard.keep_findings(findings);
            Ok(FileAnswer {
                answer: Answer::Report(report),
                bytes: Some(picture),
            })
        }
        Err(error) => Err(fault_of(error)),
    }
}

/// The answer to the case that a source has under a name: its report and its picture, or its first fault.
fn draw_answer<R: Threads + Wait + Sync, G: Watch + Sync, S: Source, H: Hears>(
    host: &Host<'_, R, G>,
    name: &str,
    workers: u32,
    asked: Asked,
    source: &mut S,
    heard: &mut H,
) -> FileAnswer
    requires some { 1 ≤ workers }
    requires few { workers ≤ 64 }
    ensures { AnswersDraw asked S.read_gives source.old name.now (line (answer_text result.answer))
        (answer_status result.answer) (option_map (λ bytes. bytes) result.bytes) source.new }
{
    match drawing(host, name, workers, asked, source, heard) {
        Ok(made) => made,
        Err(fault) => FileAnswer::of_fault(fault),
    }
}

/// Hears that more rows are asked for than are drawn at most, if they are.
fn hear_limit<H: Hears>(asked: Asked, heard: &mut H) {
    let most = limit_of(asked.page) as u64;
    if let Some(asked) = asked.count {
        if most < asked {
            heard.hear_limit(asked, most);
        }
    }
}

/// Audits the case that a source has under a name, draws it, and writes the picture or page to `file`; then says the report.
/// Or it says the case's first fault, and writes nothing to `file`.
pub fn say_drawn<
    R: Threads + Wait + Sync,
    G: Watch + Sync,
    S: Source,
    O: Output,
    F: Output,
    H: Hears,
>(
    host: &Host<'_, R, G>,
    name: &str,
    workers: u32,
    asked: Asked,
    source: &mut S,
    heard: &mut H,
    out: &mut O,
    file: &mut F,
) -> Result<u8, Failed<O::Error, F::Error>>
    requires some { 1 ≤ workers }
    requires few { workers ≤ 64 }
    requires out { O.can_write out.old }
    requires file { F.can_write file.old }
    ensures { Writes (λ text status bytes. AnswersDraw asked S.read_gives source.old name.now text
        status bytes source.new) (Wrote O.contents O.is_finished)
        (Wrote F.contents F.is_finished) out.old out.new file.old file.new result }
{
    let made = draw_answer(host, name, workers, asked, source, heard);
    hear_limit(asked, heard);
    say_made(made, heard, out, file)
}
