//! A case, read and audited: what `graph` and `run` have in common, and `check` and `draw` in part.

ghost use Rattle.std.specs.Prelude.{◌≡◌, ◌≤◌};
ghost use Rattle.command_run.specs.Glue.{ComesJudged};

use crate::hearing::Hears;
use crate::host::Host;
use crate::watch::Watch;
use audit_core::{AuditError, audit_with_findings};
use case_files::{ReadCase, Source, read_case};
use case_report::Report;
use report_lines::Fault;
use std::sync::Wait;
use std::thread::Threads;

/// The fault of a case that isn't audited although it ties up and its workers are neither none nor too many.
pub(super) fn fault_of(error: AuditError) -> Fault
    requires { error ≡ AuditError.OutOfMemory }
    ensures { result ≡ Fault.OutOfMemory }
{
    match error {
        AuditError::OutOfMemory => Fault::OutOfMemory,
        _ => unreachable!(),
    }
}

/// The report of the case that a source has under a name, by the order that its file names, if it names one: so many workers
/// audit it, the calling thread among them. What was found of its logs and links is heard, where notes are
/// to be made.
///
/// # Errors
///
/// The case's first fault, or out of memory.
pub fn case_report<R: Threads + Wait + Sync, G: Watch + Sync, S: Source, H: Hears>(
    host: &Host<'_, R, G>,
    name: &str,
    workers: u32,
    source: &mut S,
    heard: &mut H,
) -> Result<Report, Fault>
    requires some { 1 ≤ workers }
    requires few { workers ≤ 64 }
    ensures { ComesJudged S.read_gives source.old name.now result source.new }
{
    let ReadCase { case, order } = read_case(host.alloc, source, name)?;
    host.watch.begins(case.logs().len(), case.links().len());
    match audit_with_findings(host.rt, host.alloc, case, order, workers, host.watch) {
        Ok((report, findings)) => {
            heard.keep_findings(findings);
            Ok(report)
        }
        Err(error) => Err(fault_of(error)),
    }
}
