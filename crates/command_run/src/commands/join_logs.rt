//! Logs whose connections are joined: the logs with other numbers and their case go to a folder, and then the line is said.

ghost use Rattle.std.specs.Prelude.{◌≡◌, ◌≤◌, ◌<◌, IfOk, IsSome, None, OnErr, OnOk, length, map, string_bytes};
ghost use Rattle.std.specs.List.{flat_map};
ghost use Rattle.vat_log.specs.Spelling.{log_bytes};
ghost use Rattle.log_ends.specs.Joining.{IsJoined};
ghost use Rattle.report_lines.specs.Lines.{answer_status, answer_text, line};
ghost use Rattle.command_run.specs.Glue.{IsFilesOf, joined_bytes};
ghost use Rattle.command_run.specs.JoinAnswers.{AnswersJoin, AnswersLogsOf, AnswersPairs, AreLinks, ArePaths, IsLinkOf};
ghost use Rattle.command_run.specs.Runs.{Adds, Saves, Writes, Wrote};

use crate::answering::{save_part, say_behind};
use crate::hearing::Hears;
use crate::output::{Failed, Output};
use bytes::Bytes;
use case_book::{CaseError, Link, MAX_LINKS, MAX_VATS};
use case_files::{Source, file_names, read_log_list, written_case};
use log_ends::{EndPair, Joining, alike_ends, join_ends, renumbered_logs, vat_of};
use report_lines::{Answer, Fault, JoinLine};
use std::alloc::{AllocError, Global};
use std::mem;
use vat_log::VatLog;

/// What is written to a folder: a file for each log, and the case file.
#[derive(Drop)]
pub(crate) struct JoinedFolder {
    logs: Vec<VatLog>,
    case: Bytes,
}

/// What answers logs whose connections are to be joined.
#[derive(Drop)]
struct JoinAnswer {
    answer: Answer,
    /// What is written to the folder, where all are joined.
    folder: Option<JoinedFolder>,
}

/// The answer that has a fault, with nothing for the folder.
fn fault_answer(fault: Fault) -> JoinAnswer
    ensures answer { result.answer ≡ Answer.Fault fault }
    ensures folder { result.folder ≡ None }
{
    JoinAnswer {
        answer: Answer::Fault(fault),
        folder: None,
    }
}

/// The answer that has this line, with nothing for the folder.
fn line_answer(line: JoinLine) -> JoinAnswer
    ensures answer { result.answer ≡ Answer.Join line }
    ensures folder { result.folder ≡ None }
{
    JoinAnswer {
        answer: Answer::Join(line),
        folder: None,
    }
}

/// The new link of a pair of this number.
fn link_of(logs: &[VatLog], pair: EndPair, number: u32) -> Link
    requires first { pair.first.log < length logs.now }
    requires second { pair.second.log < length logs.now }
    requires few { length logs.now ≤ 1024 }
    ensures { IsLinkOf logs.now pair number result }
{
    Link {
        connection: number,
        a: vat_of(logs, pair.first.log),
        b: vat_of(logs, pair.second.log),
    }
}

/// The links that the new logs have: one for each pair.
fn links_of(alloc: Global, logs: &[VatLog], pairs: &[EndPair]) -> Result<Vec<Link>, AllocError>
    requires joined { IsJoined logs.now pairs.now }
    requires few_logs { length logs.now ≤ 1024 }
    requires few_pairs { length pairs.now ≤ 4096 }
    ensures { IfOk result (λ links. AreLinks logs.now pairs.now links.items) }
{
    let mut links = Vec::new(alloc);
    for number in 0..pairs.len() {
        let pair = pairs[number];
        links.push(link_of(logs, pair, number as u32))?;
    }
    Ok(links)
}

/// The paths of the new logs, from the working directory.
fn paths_of(alloc: Global, folder: &str, names: &[&str]) -> Result<Vec<String>, AllocError>
    ensures { IfOk result (λ paths. ArePaths folder.now (map (λ name. name.now) names.now)
        (map string_bytes paths.items)) }
{
    let files = file_names(alloc, names)?;
    let mut paths = Vec::new(alloc);
    for name in &files {
        paths.push(format!(in alloc; "{folder}/{name}")?)?;
    }
    Ok(paths)
}

/// What is written to the folder.
fn folder_of(
    alloc: Global,
    folder: &str,
    names: &[&str],
    logs: &[VatLog],
    pairs: &[EndPair],
) -> Result<JoinedFolder, AllocError>
    requires joined { IsJoined logs.now pairs.now }
    requires few_logs { length logs.now ≤ 1024 }
    requires few_pairs { length pairs.now ≤ 4096 }
    ensures { IfOk result
        (λ made. IsFilesOf folder.now (map (λ name. name.now) names.now)
        logs.now pairs.now made) }
{
    let paths = paths_of(alloc, folder, names)?;
    let links = links_of(alloc, logs, pairs)?;
    Ok(JoinedFolder {
        logs: renumbered_logs(alloc, logs, pairs)?,
        case: written_case(alloc, &paths, &links)?,
    })
}

/// Whether two ends are those of one of these pairs.
fn is_pair(pairs: &[EndPair], alike: EndPair) -> bool {
    pairs.iter().any(|pair| *pair == alike)
}

/// Has it heard that two ends were alike, where there are such that aren't those of one connection.
fn keep_alike<H: Hears>(
    alloc: Global,
    logs: &[VatLog],
    pairs: &[EndPair],
    heard: &mut H,
) -> Result<(), AllocError> {
    match alike_ends(alloc, logs)? {
        Some(alike) if !is_pair(pairs, alike) => {
            heard.hear_alike(alike.first, alike.second);
        }
        _ => {}
    }
    Ok(())
}

/// The answer to logs each of whose connections has both its ends.
fn joined_answer<H: Hears>(
    alloc: Global,
    folder: &str,
    names: &[&str],
    logs: &[VatLog],
    pairs: &[EndPair],
    heard: &mut H,
) -> Result<JoinAnswer, AllocError>
    requires joined { IsJoined logs.now pairs.now }
    requires few { length logs.now ≤ 1024 }
    ensures { IfOk result
        (λ made. AnswersPairs folder.now (map (λ name. name.now) names.now)
        logs.now pairs.now (line (answer_text made.answer)) (answer_status made.answer)
        (joined_bytes made.folder)) }
{
    if pairs.len() > MAX_LINKS {
        return Ok(fault_answer(Fault::Refused(CaseError::TooManyLinks)));
    }
    keep_alike(alloc, logs, pairs, heard)?;
    let made = folder_of(alloc, folder, names, logs, pairs)?;
    Ok(JoinAnswer {
        answer: Answer::Join(JoinLine::Joined {
            vats: logs.len() as u64,
            links: pairs.len() as u64,
        }),
        folder: Some(made),
    })
}

/// The answer to logs that are read.
fn answer_of_logs<H: Hears>(
    alloc: Global,
    folder: &str,
    names: &[&str],
    logs: &[VatLog],
    heard: &mut H,
) -> Result<JoinAnswer, AllocError>
    ensures { IfOk result
        (λ made. AnswersLogsOf folder.now (map (λ name. name.now) names.now)
        logs.now (line (answer_text made.answer)) (answer_status made.answer)
        (joined_bytes made.folder)) }
{
    if logs.len() > MAX_VATS {
        return Ok(fault_answer(Fault::Refused(CaseError::TooManyVats)));
    }
    Ok(match join_ends(alloc, logs)? {
        Joining::Joined(pairs) => joined_answer(alloc, folder, names, logs, &pairs, heard)?,
        Joining::Unmatched(end) => {
            heard.hear_unmatched(end);
            line_answer(JoinLine::Unmatched {
                connection: end.connection,
                vat: vat_of(logs, end.log),
            })
        }
        Joining::Ambiguous(end) => {
            heard.hear_ambiguous(end);
            line_answer(JoinLine::Ambiguous {
                connection: end.connection,
                vat: vat_of(logs, end.log),
            })
        }
    })
}

/// The answer to the logs that a source has under these names.
fn join_answer<S: Source, H: Hears>(
    alloc: Global,
    folder: &str,
    names: &[&str],
    source: &mut S,
    heard: &mut H,
) -> JoinAnswer
    ensures { AnswersJoin S.read_gives source.old (map (λ name. name.now) names.now)
        folder.now (line (answer_text result.answer)) (answer_status result.answer)
        (joined_bytes result.folder) source.new }
{
    let logs = match read_log_list(alloc, source, names) {
        Ok(logs) => logs,
        Err(fault) => return fault_answer(Fault::from(fault)),
    };
    match answer_of_logs(alloc, folder, names, &logs, heard) {
        Ok(made) => made,
        Err(AllocError) => fault_answer(Fault::OutOfMemory),
    }
}

/// Writes logs, each to a file of its own. More files may follow.
fn save_logs<F: Output>(logs: &[VatLog], file: &mut F) -> Result<(), F::Error>
    requires { F.can_write file.old }
    ensures wrote { OnOk result (Adds F.contents file.old (flat_map log_bytes logs.now) file.new) }
    ensures more { OnOk result (F.can_write file.new) }
{
    for log in logs {
        save_part(log.bytes(), file)?;
    }
    Ok(())
}

/// Writes the files of a folder, if there is one, one after another: each is finished before the next begins.
fn save_folder<F: Output>(folder: &Option<JoinedFolder>, file: &mut F) -> Result<(), F::Error>
    requires { F.can_write file.old }
    ensures saves { OnOk result
        (Saves (Wrote F.contents F.is_finished) (joined_bytes folder.now) file.old file.new) }
    ensures fails { OnErr result (IsSome (joined_bytes folder.now)) }
{
    if let Some(folder) = folder {
        save_logs(&folder.logs, file)?;
        save_part(&folder.case, file)?;
    }
    Ok(())
}

/// Finds which connection of which log is the other end of which, in the logs that a source has under these names; writes them
/// with other numbers, and their case, to `file`, where each connection has both its ends, and then says what was found.
pub fn say_join<S: Source, O: Output, F: Output, H: Hears>(
    alloc: Global,
    folder: &str,
    names: &[&str],
    source: &mut S,
    heard: &mut H,
    out: &mut O,
    file: &mut F,
) -> Result<u8, Failed<O::Error, F::Error>>
    requires out { O.can_write out.old }
    requires file { F.can_write file.old }
    ensures { Writes (λ text status bytes. AnswersJoin S.read_gives source.old (map (λ name. name.now) names.now)
        folder.now text status bytes source.new) (Wrote O.contents O.is_finished)
        (Wrote F.contents F.is_finished) out.old out.new file.old file.new result }
{
    let made = join_answer(alloc, folder, names, source, heard);
    let saved = save_folder(&made.folder, file);
    let said = say_behind(saved, &made.answer, heard, out);
    mem::forget(made);
    said
}
