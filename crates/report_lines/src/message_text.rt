//! The text of a message, without an end of line: its kind, and each of its fields behind its name (docs/FORMATS.md).

ghost use Rattle.std.specs.Prelude.{◌≡◌, Some, codes};
ghost use Rattle.std.specs.Fmt.{WritesOnOk, decimal};
ghost use Rattle.std.specs.List.{join_by};
ghost use Rattle.report_lines.specs.MessageText.{path_text, target_text, descriptor_text, field_text, payload_text, outcome_text, resolution_text, light_text, loopback_text, hexadecimal, yourself_text, message_text};

use crate::shown::Shown;
use cap_frame::Path;
use rpc_view::{
    CallHead, Descriptor, Loopback, Outcome, Payload, Resolution, ReturnHead, RpcMessage, Target,
};
use std::fmt::{self, Display, Formatter};

/// Numbers with a comma between each two.
impl Display for Shown<&[u16]> {
    ghost output = { λ numbers. Some (join_by decimal (codes ",") numbers.0.now) };

    fn fmt<W: fmt::Write>(&self, f: &mut Formatter<W>) -> fmt::Result {
        let mut between = "";
        for number in self.0 {
            write!(f, "{between}{number}")?;
            between = ",";
        }
        Ok(())
    }
}

impl Display for Shown<&Path> {
    ghost output = { λ path. Some (path_text path.0.now) };

    fn fmt<W: fmt::Write>(&self, f: &mut Formatter<W>) -> fmt::Result {
        write!(f, "[{}]", Shown(self.0.as_slice()))
    }
}

impl Display for Shown<&Target> {
    ghost output = { λ target. Some (target_text target.0.now) };

    fn fmt<W: fmt::Write>(&self, f: &mut Formatter<W>) -> fmt::Result {
        match self.0 {
            Target::Imported(number) => write!(f, "import {number}"),
            Target::Promised(question, path) => write!(f, "answer {question} {}", Shown(path)),
        }
    }
}

impl Display for Shown<&Descriptor> {
    ghost output = { λ descriptor. Some (descriptor_text descriptor.0.now) };

    fn fmt<W: fmt::Write>(&self, f: &mut Formatter<W>) -> fmt::Result {
        match self.0 {
            Descriptor::NoCap => f.write_str("none"),
            Descriptor::SenderHosted(number) => write!(f, "senderHosted {number}"),
            Descriptor::SenderPromise(number) => write!(f, "senderPromise {number}"),
            Descriptor::ReceiverHosted(number) => write!(f, "receiverHosted {number}"),
            Descriptor::ReceiverAnswer(question, path) => {
                write!(f, "receiverAnswer {question} {}", Shown(path))
            }
        }
    }
}

/// The entries of a capability table, with a semicolon between each two.
impl Display for Shown<&[Descriptor]> {
    ghost output = { λ descriptors. Some (join_by descriptor_text (codes ";") descriptors.0.now) };

    fn fmt<W: fmt::Write>(&self, f: &mut Formatter<W>) -> fmt::Result {
        let mut between = "";
        for descriptor in self.0 {
            write!(f, "{between}{}", Shown(descriptor))?;
            between = ";";
        }
        Ok(())
    }
}

/// The capabilities of a payload's content, with a semicolon between each two.
impl Display for Shown<&[(Path, u32)]> {
    ghost output = { λ fields. Some (join_by field_text (codes ";") fields.0.now) };

    fn fmt<W: fmt::Write>(&self, f: &mut Formatter<W>) -> fmt::Result {
        let mut between = "";
        for (path, index) in self.0 {
            write!(f, "{between}{}={index}", Shown(path))?;
            between = ";";
        }
        Ok(())
    }
}

impl Display for Shown<&Payload> {
    ghost output = { λ payload. Some (payload_text payload.0.now) };

    fn fmt<W: fmt::Write>(&self, f: &mut Formatter<W>) -> fmt::Result {
        let caps = Shown(self.0.descriptors.as_slice());
        let fields = Shown(self.0.fields.as_slice());
        write!(f, "caps [{caps}] fields [{fields}]")
    }
}

impl Display for Shown<&Outcome> {
    ghost output = { λ outcome. Some (outcome_text outcome.0.now) };

    fn fmt<W: fmt::Write>(&self, f: &mut Formatter<W>) -> fmt::Result {
        match self.0 {
            Outcome::Results(results) => write!(f, "results {}", Shown(results)),
            Outcome::Exception => f.write_str("exception"),
            Outcome::Canceled => f.write_str("canceled"),
            Outcome::Elsewhere => f.write_str("resultsSentElsewhere"),
            Outcome::TakeFrom(question) => write!(f, "takeFromOtherQuestion {question}"),
        }
    }
}

impl Display for Shown<&Resolution> {
    ghost output = { λ resolution. Some (resolution_text resolution.0.now) };

    fn fmt<W: fmt::Write>(&self, f: &mut Formatter<W>) -> fmt::Result {
        match self.0 {
            Resolution::Cap(descriptor) => write!(f, "{}", Shown(descriptor)),
            Resolution::Exception => f.write_str("exception"),
        }
    }
}

/// The name of a loopback's end.
pub fn loopback_text(loopback: Loopback) -> &'static str
    ensures { result.now ≡ loopback_text loopback }
{
    match loopback {
        Loopback::Sender => "senderLoopback",
        Loopback::Receiver => "receiverLoopback",
    }
}

/// The id of an interface, in sixteen hexadecimal digits.
#[derive(Clone, Copy)]
pub struct Interface(pub u64);

impl Display for Interface {
    ghost output = { λ interface. Some (hexadecimal interface.0) };

    fn fmt<W: fmt::Write>(&self, f: &mut Formatter<W>) -> fmt::Result {
        let number = self.0;
        write!(f, "{number:016x}")
    }
}

/// What the line of a Call says of where its results go: nothing where they go to its caller.
fn yourself_text(yourself: bool) -> &'static str
    ensures { result.now ≡ yourself_text yourself }
{
    if yourself { " yourself" } else { "" }
}

/// Writes a Call: its question, target, interface, method and parameters, and whether its results stay with their answerer.
fn put_call<W: fmt::Write>(
    f: &mut Formatter<W>,
    head: CallHead,
    target: &Target,
    params: &Payload,
) -> fmt::Result
    ensures { WritesOnOk W.write_str_gives f.old result
        (message_text (RpcMessage.Call head target.now params.now)) f.new }
{
    let CallHead {
        question,
        interface,
        method,
        yourself,
    } = head;
    let target = Shown(target);
    let interface = Interface(interface);
    let params = Shown(params);
    let results = yourself_text(yourself);
    write!(
        f,
        "call question {question} target {target} interface {interface} method {method} {params}{results}"
    )
}

/// What the line of a Return says of its Finish: nothing where one is needed.
fn light_text(light: bool) -> &'static str
    ensures { result.now ≡ light_text light }
{
    if light { " noFinishNeeded" } else { "" }
}

/// Writes a Return: its answer, whether it gives back parameters' capabilities, what came of the call, and if it needs a Finish.
fn put_return<W: fmt::Write>(
    f: &mut Formatter<W>,
    head: ReturnHead,
    outcome: &Outcome,
) -> fmt::Result
    ensures { WritesOnOk W.write_str_gives f.old result
        (message_text (RpcMessage.Return head outcome.now)) f.new }
{
    let ReturnHead {
        answer,
        release_param_caps,
        light,
    } = head;
    let outcome = Shown(outcome);
    let finish = light_text(light);
    write!(
        f,
        "return answer {answer} releaseParamCaps {release_param_caps} {outcome}{finish}"
    )
}

/// Writes a Disembargo: its number, which end it is at, and what it goes to.
fn put_disembargo<W: fmt::Write>(
    f: &mut Formatter<W>,
    number: u32,
    loopback: Loopback,
    target: &Target,
) -> fmt::Result
    ensures { WritesOnOk W.write_str_gives f.old result
        (message_text (RpcMessage.Disembargo number loopback target.now)) f.new }
{
    let loopback = loopback_text(loopback);
    let target = Shown(target);
    write!(f, "disembargo {number} {loopback} {target}")
}

impl Display for Shown<&RpcMessage> {
    ghost output = { λ message. Some (message_text message.0.now) };

    fn fmt<W: fmt::Write>(&self, f: &mut Formatter<W>) -> fmt::Result {
        match self.0 {
            RpcMessage::Bootstrap { question } => write!(f, "bootstrap question {question}"),
            RpcMessage::Call {
                head,
                target,
                params,
            } => put_call(f, *head, target, params),
            RpcMessage::Return { head, outcome } => put_return(f, *head, outcome),
            RpcMessage::Finish {
                question,
                release_result_caps,
            } => {
                write!(
                    f,
                    "finish question {question} releaseResultCaps {release_result_caps}"
                )
            }
            RpcMessage::Resolve {
                promise,
                resolution,
            } => write!(f, "resolve promise {promise} {}", Shown(resolution)),
            RpcMessage::Release { id, count } => write!(f, "release id {id} count {count}"),
            RpcMessage::Disembargo {
                number,
                loopback,
                target,
            } => put_disembargo(f, *number, *loopback, target),
            RpcMessage::Abort => f.write_str("abort"),
        }
    }
}
