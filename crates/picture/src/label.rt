//! The words of a row.

ghost use Rattle.std.specs.Prelude.{◌≡◌, Some, false};
ghost use Rattle.std.specs.Fmt.{WritesOnOk};
ghost use Rattle.picture.specs.Labels.{caps_text, ending_text, label_text, results_text, said_text, short_outcome, short_text};

use crate::reason_text::ShortReason;
use exception_reasons::Reason;
use report_lines::{Shown, loopback_text};
use rpc_view::{CallHead, Descriptor, Outcome, Payload, RpcMessage, Target};
use std::fmt::{self, Display, Formatter};
use vat_log::{Body, ResultReferences};

/// A capability table: its first three entries, and how many more there are.
#[derive(Clone, Copy)]
struct ListedCaps<'a>(&'a [Descriptor]);

impl Display for ListedCaps<'_> {
    ghost output = { λ caps. Some (caps_text caps.0.now) };

    fn fmt<W: fmt::Write>(&self, f: &mut Formatter<W>) -> fmt::Result {
        let caps = self.0;
        if caps.is_empty() {
            return Ok(());
        }
        if caps.len() <= 3 {
            return write!(f, " caps {}", Shown(caps));
        }
        let (first, others) = caps.split_at(3);
        let more = others.len();
        write!(f, " caps {} and {more} more", Shown(first))
    }
}

/// What a Return says of its call, in short.
#[derive(Clone, Copy)]
struct ShortOutcome<'a>(&'a Outcome);

impl Display for ShortOutcome<'_> {
    ghost output = { λ outcome. Some (short_outcome outcome.0.now) };

    fn fmt<W: fmt::Write>(&self, f: &mut Formatter<W>) -> fmt::Result {
        match self.0 {
            Outcome::Results(payload) => {
                write!(f, "results{}", ListedCaps(payload.descriptors.as_slice()))
            }
            Outcome::Exception => f.write_str("exception"),
            Outcome::Canceled => f.write_str("canceled"),
            Outcome::Elsewhere => f.write_str("results sent elsewhere"),
            Outcome::TakeFrom(question) => write!(f, "takes from {question}"),
        }
    }
}

/// Writes a Call in short.
fn put_call<W: fmt::Write>(
    f: &mut Formatter<W>,
    head: CallHead,
    target: &Target,
    params: &Payload,
) -> fmt::Result
    ensures { WritesOnOk W.write_str_gives f.old result
        (short_text (RpcMessage.Call head target.now params.now)) f.new }
{
    let caps = ListedCaps(params.descriptors.as_slice());
    let question = head.question;
    write!(f, "call {question} to {}{caps}", Shown(target))
}

/// A message in short: its kind, its question or number, its target, and its capabilities.
#[derive(Clone, Copy)]
struct Short<'a>(&'a RpcMessage);

impl Display for Short<'_> {
    ghost output = { λ said. Some (short_text said.0.now) };

    fn fmt<W: fmt::Write>(&self, f: &mut Formatter<W>) -> fmt::Result {
        match self.0 {
            RpcMessage::Bootstrap { question } => write!(f, "bootstrap {question}"),
            RpcMessage::Call {
                head,
                target,
                params,
            } => put_call(f, *head, target, params),
            RpcMessage::Return { head, outcome } => {
                let answer = head.answer;
                write!(f, "return {answer} {}", ShortOutcome(outcome))
            }
            RpcMessage::Finish { question, .. } => write!(f, "finish {question}"),
            RpcMessage::Resolve {
                promise,
                resolution,
            } => write!(f, "resolve {promise} to {}", Shown(resolution)),
            RpcMessage::Release { id, count } => write!(f, "release {id} times {count}"),
            RpcMessage::Disembargo {
                number,
                loopback,
                target,
            } => {
                let loopback = loopback_text(*loopback);
                write!(f, "disembargo {number} {loopback} to {}", Shown(target))
            }
            RpcMessage::Abort => f.write_str("abort"),
        }
    }
}

/// Writes the results of a call: where there are more than three capabilities, how many there are.
fn put_answer<W: fmt::Write>(
    f: &mut Formatter<W>,
    body: &Body,
    call: u64,
    results: &ResultReferences,
) -> fmt::Result
    requires { body.now ≡ Body.Answer call results.now }
    ensures { WritesOnOk W.write_str_gives f.old result (results_text call results.now) f.new }
{
    let count = results.as_slice().len();
    if count > 3 {
        write!(f, "answer call {call} with {count} capabilities")
    } else {
        write!(f, "{}", Shown(body))
    }
}

/// What a record says in short, whose frame has this message.
#[derive(Clone, Copy)]
struct Said<'a> {
    body: &'a Body,
    message: &'a Option<RpcMessage>,
}

impl Display for Said<'_> {
    ghost output = { λ said. Some (said_text said.body.now said.message.now) };

    fn fmt<W: fmt::Write>(&self, f: &mut Formatter<W>) -> fmt::Result {
        let body = self.body;
        match (self.message, body) {
            (Some(message), _) => write!(f, "{}", Short(message)),
            (None, Body::Send { .. }) => f.write_str("send, unread"),
            (None, Body::Receive { .. }) => f.write_str("receive, unread"),
            (None, Body::Answer { call, results }) => put_answer(f, body, *call, results),
            (None, _) => write!(f, "{}", Shown(body)),
        }
    }
}

/// What stands behind a call that never ended.
fn ending_text(unended: bool) -> &'static str
    ensures { result.now ≡ ending_text unended }
{
    if unended { ", never ended" } else { "" }
}

/// The words of a row: the number of its record, what that says in short, the reason of its exception, and whether it is a call
/// that never ended.
#[derive(Clone, Copy)]
pub struct Label<'a> {
    /// The record's number in its log, counted from 0.
    pub number: usize,
    /// What the record says.
    pub body: &'a Body,
    /// The message of its frame, where it is read.
    pub message: &'a Option<RpcMessage>,
    /// The reason that the frame gives, if it gives one.
    pub reason: &'a Option<Reason>,
    /// Whether it makes or sends a call that never ended.
    pub unended: bool,
}

impl Display for Label<'_> {
    ghost output = { λ label. Some (label_text label.number label.body.now label.message.now label.reason.now label.unended) };

    fn fmt<W: fmt::Write>(&self, f: &mut Formatter<W>) -> fmt::Result {
        let number = self.number;
        let said = Said {
            body: self.body,
            message: self.message,
        };
        let (reason, ending) = (ShortReason(self.reason), ending_text(self.unended));
        write!(f, "{number} {said}{reason}{ending}")
    }
}
