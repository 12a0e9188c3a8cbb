//! The answers to a file of frames, which holds one after another.

ghost use Rattle.std.specs.Prelude.{◌≡◌, ◌≢◌, ◌<◌, [], length, take, drop, OnOk, IfOk};
ghost use Rattle.case_files.specs.CaseReading.{Read};
ghost use Rattle.report_lines.specs.Lines.{answer_status, answer_text, line};
ghost use Rattle.command_run.specs.CommandAnswers.{AnswersBytes, AnswersFile};
ghost use Rattle.command_run.specs.Glue.{Prints};
ghost use Rattle.command_run.specs.Runs.{Wrote};
ghost use Rattle.command_run.specs.FrameFiles.{piece_len, piece_line, piece_status};

use crate::answering::{put, say};
use crate::commands::hex_frame::answer_of_bytes;
use crate::commands::next_frame::cut_piece;
use crate::hearing::Hears;
use crate::output::Output;
use bytes::Bytes;
use case_files::Source;
use report_lines::{Answer, Fault};
use rpc_view::Edition;
use std::alloc::{AllocError, Global};

/// Cuts the first piece off the bytes, and answers it as a frame of its own, by the first edition.
fn next_answer(alloc: Global, bytes: &mut Bytes) -> Result<Answer, AllocError>
    ensures line { IfOk result
        (λ answer. line (answer_text answer) ≡ piece_line (take (piece_len bytes.old) bytes.old)) }
    ensures status { IfOk result
        (λ answer. answer_status answer ≡ piece_status (take (piece_len bytes.old) bytes.old)) }
    ensures rest { OnOk result (bytes.new ≡ drop (piece_len bytes.old) bytes.old) }
    ensures shorter { bytes.old ≢ [] → OnOk result (length bytes.new < length bytes.old) }
{
    let piece = cut_piece(bytes)?;
    answer_of_bytes(alloc, piece, Edition::First)
}

/// Says the answer to each frame of a file.
fn say_bytes<O: Output, H: Hears>(
    alloc: Global,
    bytes: Bytes,
    heard: &mut H,
    out: &mut O,
) -> Result<u8, O::Error>
    requires { O.can_write out.old }
    ensures { Prints (AnswersBytes bytes) (Wrote O.contents O.is_finished) out.old out.new result }
{
    let mut rest = bytes;
    let mut status = 0;
    while !rest.is_empty() {
        let Ok(answer) = next_answer(alloc, &mut rest) else {
            return say(Answer::Fault(Fault::OutOfMemory), heard, out);
        };
        status = status.max(put(answer, heard, out)?);
    }
    out.finish()?;
    Ok(status)
}

/// Says the answer to each frame of the file that a source has under a name. The exit status is 0 where each is a
/// message, else 2, and 3 where memory ran out, which is said in a last line.
pub fn say_frames<S: Source, O: Output, H: Hears>(
    alloc: Global,
    name: &str,
    source: &mut S,
    heard: &mut H,
    out: &mut O,
) -> Result<u8, O::Error>
    requires { O.can_write out.old }
    ensures { (read : Read) × S.read_gives source.old name.now read source.new
        × Prints (AnswersFile read) (Wrote O.contents O.is_finished) out.old out.new result }
{
    match source.read(name) {
        Ok(bytes) => say_bytes(alloc, bytes, heard, out),
        Err(fault) => say(Answer::Fault(Fault::from(fault)), heard, out),
    }
}
