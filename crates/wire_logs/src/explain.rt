//! The explanation of two files.

ghost use Rattle.std.specs.Prelude.{◌≡◌, ◌∷◌, [], None, IfOk};
ghost use Rattle.std.specs.Arc.{arc_value};
ghost use Rattle.case_book.specs.Case.{HoldsJust};
ghost use Rattle.wire_logs.specs.Found.{IsAnswer, link};
ghost use Rattle.wire_logs.specs.Glue.{IsAudited, IsCutOr, IsFoundIn};

use crate::line_of::line_of;
use audit_core::{Gate, audit};
use bytes::Bytes;
use case_book::{Case, Link};
use case_report::{Report, WireAnswer, WireLine, WireLogs};
use std::alloc::{AllocError, Global};
use std::sync::{Arc, Wait};
use std::thread::Threads;
use vat_log::VatLog;
use wire_cut::{CutFault, End, WireFile, cut_frames};
use wire_ends::{MadeLogs, Making, make_logs};

/// The link between the two ends.
const LINK: Link = Link {
    connection: 0,
    a: 1,
    b: 2,
};

/// The case of the two logs.
fn case_of(alloc: Global, made: &MadeLogs) -> Result<Case, AllocError>
    ensures { IfOk result (HoldsJust
        (arc_value made.now.log_of_a ∷ arc_value made.now.log_of_b ∷ []) (link ∷ [])) }
{
    let mut logs = Vec::new(alloc);
    logs.push(Arc::try_clone(&made.log_of_a)?)?;
    logs.push(Arc::try_clone(&made.log_of_b)?)?;
    let mut links = Vec::new(alloc);
    links.push(LINK)?;
    match Case::new(logs, links) {
        Ok(case) => Ok(case),
        Err(_) => Err(AllocError),
    }
}

/// The audit's report of the two logs.
fn report_of<R: Threads + Wait + Sync, G: Gate + Sync>(
    rt: &R,
    alloc: Global,
    made: &MadeLogs,
    gate: &G,
) -> Result<Report, AllocError>
    ensures { IfOk result
        (IsAudited (arc_value made.now.log_of_a) (arc_value made.now.log_of_b)) }
{
    match audit(rt, alloc, case_of(alloc, made)?, None, 1, gate) {
        Ok(report) => Ok(report),
        Err(_) => Err(AllocError),
    }
}

/// An answer without logs.
fn without_logs(
    line: WireLine,
    full: Option<Arc<VatLog>>,
    frames: [u64; 2],
    left: [u64; 2],
) -> WireAnswer
    ensures line { result.line ≡ line }
    ensures logs { result.logs ≡ None }
    ensures full { result.full ≡ full }
{
    WireAnswer {
        line,
        logs: None,
        full,
        frames,
        left,
        waiting: [None, None],
        overtaking: [None, None],
    }
}

/// The frames of a file, or the line that says where none begins, or one that is too long.
fn file_of(alloc: Global, bytes: &Bytes, end: End) -> Result<Result<WireFile, WireLine>, AllocError>
    ensures { IfOk result (IsCutOr bytes.now end) }
{
    match cut_frames(alloc, bytes) {
        Ok(file) => Ok(Ok(file)),
        Err(CutFault::TooManySegments(message)) => Ok(Err(WireLine::BadFrame { end, message })),
        Err(CutFault::TooLong(message)) => Ok(Err(WireLine::TooLong { end, message })),
        Err(CutFault::OutOfMemory) => Err(AllocError),
    }
}

/// Explains frames.
fn explain_frames<R: Threads + Wait + Sync, G: Gate + Sync>(
    rt: &R,
    alloc: Global,
    a: &WireFile,
    b: &WireFile,
    one_reference: bool,
    gate: &G,
) -> Result<WireAnswer, AllocError>
    ensures { IfOk result (IsFoundIn a.now.frames.items b.now.frames.items) }
{
    let frames = [a.frames.len() as u64, b.frames.len() as u64];
    let left = [a.left as u64, b.left as u64];
    let made = match make_logs(alloc, &a.frames, &b.frames, one_reference)? {
        Making::Made(made) => made,
        Making::Full(end, message, log) => {
            let line = WireLine::TooLong { end, message };
            return Ok(without_logs(line, Some(log), frames, left));
        }
    };
    let report = report_of(rt, alloc, &made, gate)?;
    let line = line_of(&made, &report, &a.frames, &b.frames);
    let MadeLogs {
        log_of_a,
        log_of_b,
        is_whole: _,
        unlisted: _,
        blame: _,
        waiting,
        overtaking,
    } = made;
    Ok(WireAnswer {
        line,
        logs: Some(WireLogs { log_of_a, log_of_b }),
        full: None,
        frames,
        left,
        waiting,
        overtaking,
    })
}

/// Explains what the ends of one connection sent: makes two logs that a sound pair of vats could have written around these
/// frames, and answers the line of the audit's report of just these. They have the frames of the two files from the first ones
/// on, byte for byte, and no others; where the answer is yes, they have all. Without logs it says which file isn't cut into
/// frames, or has a frame that is too long.
///
/// The first file has what the one end sent, the second what the other end sent, each in stream framing. With one reference all
/// calls to a target are made through it, and else those that overtake others through references of their own. The gate is called
/// as by [`audit`]: the case has two logs and one link. Of what is made up between the frames nothing is promised.
///
/// # Errors
///
/// Out of memory.
#[tactic(auto, using(crate::proofs::Answering::answers_files))]
pub fn explain_wire<R: Threads + Wait + Sync, G: Gate + Sync>(
    rt: &R,
    alloc: Global,
    a: &Bytes,
    b: &Bytes,
    one_reference: bool,
    gate: &G,
) -> Result<WireAnswer, AllocError>
    // What the line stands on, and what the logs have of the files.
    ensures { IfOk result (IsAnswer a.now b.now) }
{
    let of_a = match file_of(alloc, a, End::A)? {
        Ok(file) => file,
        Err(line) => return Ok(without_logs(line, None, [0, 0], [0, 0])),
    };
    let of_b = match file_of(alloc, b, End::B)? {
        Ok(file) => file,
        Err(line) => return Ok(without_logs(line, None, [0, 0], [0, 0])),
    };
    explain_frames(rt, alloc, &of_a, &of_b, one_reference, gate)
}
