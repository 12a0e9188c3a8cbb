//! The answer to a frame.

ghost use Rattle.std.specs.Prelude.{◌≡◌, IfOk};
ghost use Rattle.cap_reader.specs.Defaults.{default_limits};
ghost use Rattle.rpc_view.specs.Message.{message_of_bytes};
ghost use Rattle.report_lines.specs.Lines.{answer_status, answer_text, line};
ghost use Rattle.command_run.specs.Answers.{AnswersHex, AnswersView, edition_asked, view_answer};
ghost use Rattle.command_run.specs.CommandAnswers.{AnswersFrame};
ghost use Rattle.command_run.specs.Glue.{Prints};
ghost use Rattle.command_run.specs.Runs.{Wrote};

use crate::answering::say;
use crate::hearing::Hears;
use crate::output::Output;
use bytes::Bytes;
use hex::FromHexError;
use report_lines::{Answer, Fault};
use rpc_view::{Edition, Limits, ViewError, read_bytes};
use std::alloc::{AllocError, Global};

/// The answer to the bytes of a frame, read by an edition and within the default limits.
///
/// # Errors
///
/// Out of memory.
pub fn answer_of_bytes(alloc: Global, bytes: Bytes, edition: Edition) -> Result<Answer, AllocError>
    ensures view { IfOk result
        (λ answer. AnswersView (message_of_bytes edition bytes default_limits)
        (line (answer_text answer))
        (answer_status answer)) }
    ensures answer { IfOk result
        (λ answer. answer ≡ view_answer (message_of_bytes edition bytes default_limits)) }
{
    match read_bytes(alloc, bytes, Limits::default(), edition) {
        Ok(message) => Ok(Answer::Message(message)),
        Err(ViewError::OutOfMemory) => Err(AllocError),
        Err(fault) => Ok(Answer::Fault(Fault::from(fault))),
    }
}

/// The answer to a frame in hexadecimal, two digits a byte in either case.
fn answer_of_hex(alloc: Global, hex: &str, edition: Edition) -> Result<Answer, AllocError>
    ensures { IfOk result
        (λ answer. AnswersHex edition hex.now (line (answer_text answer)) (answer_status answer)) }
{
    match hex::decode(alloc, hex) {
        Ok(bytes) => answer_of_bytes(alloc, Bytes::from_vec(bytes)?, edition),
        Err(FromHexError::OutOfMemory) => Err(AllocError),
        Err(_) => Ok(Answer::Fault(Fault::BadHex)),
    }
}

/// The edition by which a frame is read: the later one where it is asked for.
fn edition_asked(later: bool) -> Edition
    ensures { result ≡ edition_asked later }
{
    if later {
        Edition::Later
    } else {
        Edition::First
    }
}

/// Says the message of a frame in hexadecimal, read by the later edition where that is asked for, and else by the first.
pub fn say_frame<O: Output, H: Hears>(
    alloc: Global,
    hex: &str,
    later: bool,
    heard: &mut H,
    out: &mut O,
) -> Result<u8, O::Error>
    requires { O.can_write out.old }
    ensures { Prints (AnswersFrame (edition_asked later) hex.now)
        (Wrote O.contents O.is_finished) out.old out.new result }
{
    match answer_of_hex(alloc, hex, edition_asked(later)) {
        Ok(answer) => say(answer, heard, out),
        Err(AllocError) => say(Answer::Fault(Fault::OutOfMemory), heard, out),
    }
}
