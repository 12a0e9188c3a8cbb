//! A connection, judged by the bytes that its ends sent: its two logs go to a folder, where one is asked for, and then the line
//! is said.

ghost use Rattle.std.specs.Prelude.{◌≡◌, IfOk, IsSome, OnErr, OnOk, option_map};
ghost use Rattle.report_lines.specs.Lines.{answer_status, answer_text, line};
ghost use Rattle.command_run.specs.Glue.{folder_bytes};
ghost use Rattle.command_run.specs.Runs.{Saves, Writes, Wrote};
ghost use Rattle.command_run.specs.WireAnswers.{AnswersCapture, AnswersWire, AreWritten, ReadsBoth};

use crate::answering::{save_part, say_behind};
use crate::hearing::Hears;
use crate::host::Host;
use crate::output::{Failed, Output};
use crate::watch::Watch;
use bytes::Bytes;
use case_files::{Source, SourceError, link_case};
use case_report::WireLogs;
use report_lines::{Answer, Fault};
use std::alloc::{AllocError, Global};
use std::mem;
use std::sync::Wait;
use std::thread::Threads;
use wire_logs::explain_wire;

/// What is asked of a connection.
#[derive(Clone, Copy)]
pub struct AskedWire<'a> {
    /// The name of the file with what the first end sent.
    pub a: &'a str,
    /// The name of the file with what the second end sent.
    pub b: &'a str,
    /// Whether all calls to a capability are taken to be made through one reference.
    pub one_reference: bool,
    /// The folder for the logs, where they are asked for.
    pub folder: Option<&'a str>,
}

/// What both ends of a connection sent.
#[derive(Drop)]
pub(crate) struct Capture {
    a: Bytes,
    b: Bytes,
}

/// What is written to a folder: a file for each.
#[derive(Drop)]
struct WireFolder {
    log_of_a: Bytes,
    log_of_b: Bytes,
    case: Bytes,
}

/// What answers a connection.
#[derive(Drop)]
struct ConnectionAnswer {
    answer: Answer,
    /// What is written to the folder, where one is asked for and there are logs.
    folder: Option<WireFolder>,
}

/// What the files have that a source has under two names.
fn capture_of<S: Source>(source: &mut S, a: &str, b: &str) -> Result<Capture, SourceError>
    ensures { ReadsBoth S.read_gives source.old a.now b.now result source.new }
{
    let a = source.read(a)?;
    let b = source.read(b)?;
    Ok(Capture { a, b })
}

/// What is written to a folder: both logs, and the case file that names them.
fn folder_of(alloc: Global, name: &str, logs: &WireLogs) -> Result<WireFolder, AllocError>
    ensures { IfOk result (λ folder. AreWritten (Some name.now) (Some logs.now) (folder_bytes (Some folder))) }
{
    let first = format!(in alloc; "{name}/A.log")?;
    let second = format!(in alloc; "{name}/B.log")?;
    Ok(WireFolder {
        log_of_a: logs.log_of_a.bytes().clone()?,
        log_of_b: logs.log_of_b.bytes().clone()?,
        case: link_case(alloc, first.as_str(), second.as_str())?,
    })
}

/// What is written where a folder is asked for and there are logs.
fn asked_folder(
    alloc: Global,
    name: Option<&str>,
    logs: &Option<WireLogs>,
) -> Result<Option<WireFolder>, AllocError>
    ensures { IfOk result
        (λ folder. AreWritten (option_map (λ n. n.now) name.entry) logs.now (folder_bytes folder)) }
{
    let Some(name) = name else {
        return Ok(None);
    };
    let Some(logs) = logs else {
        return Ok(None);
    };
    Ok(Some(folder_of(alloc, name, logs)?))
}

/// What is found of a connection. It is heard, too, for what people are told beside it.
fn found_of<R: Threads + Wait + Sync, G: Watch + Sync, H: Hears>(
    host: &Host<'_, R, G>,
    capture: &Capture,
    asked: &AskedWire<'_>,
    heard: &mut H,
) -> Result<ConnectionAnswer, AllocError>
    ensures { IfOk result
        (λ made. AnswersCapture (option_map (λ n. n.now) asked.now.folder) (Ok capture.now)
        (line (answer_text made.answer)) (answer_status made.answer) (folder_bytes made.folder)) }
{
    host.watch.begins(2, 1);
    let found = explain_wire(
        host.rt,
        host.alloc,
        &capture.a,
        &capture.b,
        asked.one_reference,
        host.watch,
    )?;
    heard.hear_wire(&found);
    let folder = asked_folder(host.alloc, asked.folder, &found.logs)?;
    let answer = Answer::Wire(found.line);
    mem::forget(found);
    Ok(ConnectionAnswer { answer, folder })
}

/// The answer that has a fault, with nothing for a folder.
fn fault_answer(fault: Fault) -> ConnectionAnswer
    ensures answer { result.answer ≡ Answer.Fault fault }
    ensures folder { result.folder ≡ None }
{
    ConnectionAnswer {
        answer: Answer::Fault(fault),
        folder: None,
    }
}

/// The answer to what both ends of a connection sent.
fn capture_answer<R: Threads + Wait + Sync, G: Watch + Sync, H: Hears>(
    host: &Host<'_, R, G>,
    capture: &Capture,
    asked: &AskedWire<'_>,
    heard: &mut H,
) -> ConnectionAnswer
    ensures { AnswersCapture (option_map (λ n. n.now) asked.now.folder) (Ok capture.now)
        (line (answer_text result.answer)) (answer_status result.answer)
        (folder_bytes result.folder) }
{
    match found_of(host, capture, asked, heard) {
        Ok(found) => found,
        Err(AllocError) => fault_answer(Fault::OutOfMemory),
    }
}

/// The answer to the files that a source has under two names.
fn wire_answer<R: Threads + Wait + Sync, G: Watch + Sync, S: Source, H: Hears>(
    host: &Host<'_, R, G>,
    asked: &AskedWire<'_>,
    source: &mut S,
    heard: &mut H,
) -> ConnectionAnswer
    ensures { AnswersWire S.read_gives source.old asked.now.a.now asked.now.b.now
        (option_map (λ n. n.now) asked.now.folder) (line (answer_text result.answer))
        (answer_status result.answer) (folder_bytes result.folder) source.new }
{
    match capture_of(source, asked.a, asked.b) {
        Ok(capture) => capture_answer(host, &capture, asked, heard),
        Err(fault) => fault_answer(Fault::from(fault)),
    }
}

/// Writes the files of a folder, if there is one, one after another: each is finished before the next begins.
fn save_folder<F: Output>(folder: &Option<WireFolder>, file: &mut F) -> Result<(), F::Error>
    requires { F.can_write file.old }
    ensures saves { OnOk result
        (Saves (Wrote F.contents F.is_finished) (folder_bytes folder.now) file.old file.new) }
    ensures fails { OnErr result (IsSome (folder_bytes folder.now)) }
{
    if let Some(folder) = folder {
        save_part(&folder.log_of_a, file)?;
        save_part(&folder.log_of_b, file)?;
        save_part(&folder.case, file)?;
    }
    Ok(())
}

/// Judges a connection by what its ends sent, which the source has under two names; writes its logs and their case to `file`,
/// where a folder is asked for, and then says what was found.
pub fn say_wire<
    R: Threads + Wait + Sync,
    G: Watch + Sync,
    S: Source,
    O: Output,
    F: Output,
    H: Hears,
>(
    host: &Host<'_, R, G>,
    asked: &AskedWire<'_>,
    source: &mut S,
    heard: &mut H,
    out: &mut O,
    file: &mut F,
) -> Result<u8, Failed<O::Error, F::Error>>
    requires out { O.can_write out.old }
    requires file { F.can_write file.old }
    ensures { Writes (λ text status bytes. AnswersWire S.read_gives source.old asked.now.a.now asked.now.b.now
        (option_map (λ name. name.now) asked.now.folder) text status bytes source.new) (Wrote O.contents O.is_finished)
        (Wrote F.contents F.is_finished) out.old out.new file.old file.new result }
{
    let made = wire_answer(host, asked, source, heard);
    let saved = save_folder(&made.folder, file);
    let said = say_behind(saved, &made.answer, heard, out);
    mem::forget(made);
    said
}
