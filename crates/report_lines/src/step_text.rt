//! The text of a step, without an end of line: its number, its vat, its record there, the record's kind, and the call that
//! it names (docs/FORMATS.md).

ghost use Rattle.std.specs.Prelude.{◌≡◌, Some, option_map};
ghost use Rattle.report_lines.specs.StepText.{call_of_step, call_of_message, called_text, kind_text, message_word, plain_word, step_text, words_text};

use crate::shown::Shown;
use run_model::{Message, Name, Plain, Step, vat_of};
use std::fmt::{self, Display, Formatter};

/// The word for a message that says nothing of calls and capabilities.
fn plain_word(plain: Plain) -> &'static str
    ensures { result.now ≡ plain_word plain }
{
    match plain {
        Plain::Finish => "finish",
        Plain::Release => "release",
        Plain::Disembargo => "disembargo",
        Plain::Abort => "abort",
    }
}

/// The word for a message: with it the message's own text begins.
fn message_word(message: &Message) -> &'static str
    ensures { result.now ≡ message_word message.now }
{
    match message {
        Message::Boot(_) => "bootstrap",
        Message::Call { .. } => "call",
        Message::Return { .. }
        | Message::Late(_)
        | Message::Failed(_)
        | Message::Taken(..)
        | Message::Elsewhere(_) => "return",
        Message::Resolve(..) | Message::Broken(_) => "resolve",
        Message::Plain(plain) => plain_word(*plain),
    }
}

/// The call that a message names, if it does.
fn call_of_message(message: &Message) -> Option<Name>
    ensures { result ≡ call_of_message message.now }
{
    match message {
        Message::Boot(call)
        | Message::Call { call, .. }
        | Message::Return { call, .. }
        | Message::Late(call)
        | Message::Failed(call)
        | Message::Taken(call, _)
        | Message::Elsewhere(call) => Some(*call),
        Message::Resolve(..) | Message::Broken(_) | Message::Plain(_) => None,
    }
}

/// The call that a step names, if it does.
pub fn call_of_step(step: &Step) -> Option<Name>
    ensures { result ≡ call_of_step step.now }
{
    match step {
        Step::Make { vat, number, .. } => Some(Name {
            maker: *vat,
            number: *number,
        }),
        Step::Deliver { call, .. }
        | Step::Answer { call, .. }
        | Step::AnswerBy { call, .. }
        | Step::Fault { call, .. } => Some(*call),
        Step::Send { message, .. } | Step::Receive { message, .. } => call_of_message(message),
        Step::Host { .. }
        | Step::Vow { .. }
        | Step::Fulfil { .. }
        | Step::Break { .. }
        | Step::Name { .. } => None,
    }
}

/// The kind of a step's record, and the word for its message, if it has one.
pub fn kind_words(step: &Step) -> (&'static str, Option<&'static str>)
    ensures { kind_text step.now ≡ words_text result.0.now (option_map (λ word. word.now) result.1) }
{
    match step {
        Step::Host { .. } => ("host", None),
        Step::Vow { .. } => ("vow", None),
        Step::Fulfil { .. } => ("fulfil", None),
        Step::Break { .. } => ("break", None),
        Step::Make { .. } => ("make", None),
        Step::Name { .. } => ("field", None),
        Step::Deliver { .. } => ("deliver", None),
        Step::Answer { .. } => ("answer", None),
        Step::AnswerBy { .. } => ("answerby", None),
        Step::Fault { .. } => ("fault", None),
        Step::Send { message, .. } => ("send", Some(message_word(message))),
        Step::Receive { message, .. } => ("receive", Some(message_word(message))),
    }
}

/// The kind of a step's record, with the word for its message.
impl Display for Shown<&Step> {
    ghost output = { λ step. Some (kind_text step.0.now) };

    fn fmt<W: fmt::Write>(&self, f: &mut Formatter<W>) -> fmt::Result {
        match kind_words(self.0) {
            (kind, None) => f.write_str(kind),
            (kind, Some(message)) => write!(f, "{kind} {message}"),
        }
    }
}

/// The call that a step names, if it does.
impl Display for Shown<Option<Name>> {
    ghost output = { λ call. Some (called_text call.0) };

    fn fmt<W: fmt::Write>(&self, f: &mut Formatter<W>) -> fmt::Result {
        match self.0 {
            None => Ok(()),
            Some(call) => write!(f, " call {}", Shown(call)),
        }
    }
}

/// A step of a run, to be shown as its line (docs/FORMATS.md), without the line's end.
#[derive(Clone, Copy)]
pub struct NumberedStep<'a> {
    /// The step's number in its run, counted from 0.
    pub at: usize,
    /// The number of its record in its vat's log, counted from 0.
    pub record: u64,
    /// What the vat does.
    pub step: &'a Step,
}

impl Display for NumberedStep<'_> {
    ghost output = { λ shown. Some (step_text shown.at shown.«record» shown.step.now) };

    fn fmt<W: fmt::Write>(&self, f: &mut Formatter<W>) -> fmt::Result {
        let NumberedStep { at, record, step } = self;
        let (vat, kind, called) = (vat_of(step), Shown(*step), Shown(call_of_step(step)));
        write!(f, "step {at} vat {vat} record {record} {kind}{called}")
    }
}
