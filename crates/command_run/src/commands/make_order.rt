//! The order of the records of a case: its bytes go to a file, and then it is said.

ghost use Rattle.std.specs.Prelude.{IfOk, option_map};
ghost use Rattle.report_lines.specs.Lines.{answer_status, answer_text, line};
ghost use Rattle.command_run.specs.CommandAnswers.{AnswersOrder};
ghost use Rattle.command_run.specs.OrderAnswers.{AnswersLogs};
ghost use Rattle.command_run.specs.Runs.{Writes, Wrote};

use crate::answering::{FileAnswer, say_made};
use crate::hearing::Hears;
use crate::output::{Failed, Output};
use case_book::Case;
use case_files::{Source, read_case};
use merge_order::{make_order, write_order};
use report_lines::{Answer, Fault};
use std::alloc::{AllocError, Global};

/// The answer to a case: the order that takes the smallest vat number that may come at each step, or that none exists.
fn answer_of_case(alloc: Global, case: &Case) -> Result<FileAnswer, AllocError>
    ensures { IfOk result
        (λ made. AnswersLogs case.now.logs (line (answer_text made.answer))
        (answer_status made.answer) (option_map (λ bytes. bytes) made.bytes)) }
{
    let Some(order) = make_order(alloc, case.logs())? else {
        return Ok(FileAnswer {
            answer: Answer::NoOrder,
            bytes: None,
        });
    };
    let bytes = write_order(alloc, &order)?;
    Ok(FileAnswer {
        answer: Answer::Order(order),
        bytes: Some(bytes),
    })
}

/// The answer to the case that a source has under a name: the order of its records, or its first fault.
fn order_answer<S: Source>(alloc: Global, source: &mut S, name: &str) -> FileAnswer
    ensures { AnswersOrder S.read_gives source.old name.now (line (answer_text result.answer))
        (answer_status result.answer) (option_map (λ bytes. bytes) result.bytes) source.new }
{
    let read = match read_case(alloc, source, name) {
        Ok(read) => read,
        Err(fault) => return FileAnswer::of_fault(Fault::from(fault)),
    };
    match answer_of_case(alloc, &read.case) {
        Ok(made) => made,
        Err(AllocError) => FileAnswer::of_fault(Fault::OutOfMemory),
    }
}

/// Makes the order of the case that a source has under a name: writes it to `file`, and then says how many steps it
/// has; or says that no order exists, or the case's first fault.
pub fn say_order<S: Source, O: Output, F: Output, H: Hears>(
    alloc: Global,
    name: &str,
    source: &mut S,
    heard: &mut H,
    out: &mut O,
    file: &mut F,
) -> Result<u8, Failed<O::Error, F::Error>>
    requires out { O.can_write out.old }
    requires file { F.can_write file.old }
    ensures { Writes (λ text status bytes. AnswersOrder S.read_gives source.old name.now text status
        bytes source.new) (Wrote O.contents O.is_finished)
        (Wrote F.contents F.is_finished) out.old out.new file.old file.new result }
{
    let made = order_answer(alloc, source, name);
    say_made(made, heard, out, file)
}
