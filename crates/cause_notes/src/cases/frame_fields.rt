//! The fields of a message, one by one, as rpc.capnp names them.

use past_records::NoteText;
use report_lines::Shown;
use rpc_view::{Loopback, Outcome, Payload, Resolution, RpcMessage};
use std::alloc::AllocError;
use std::fmt::{self, Display, Formatter};

/// A number that is shown in another form than its own.
#[derive(Clone, Copy)]
pub(crate) enum ShownValue {
    Byte(u8),
    Interface(u64),
}

impl Display for ShownValue {
    fn fmt<W: fmt::Write>(&self, f: &mut Formatter<W>) -> fmt::Result {
        match *self {
            ShownValue::Byte(byte) => write!(f, "{byte:02x}"),
            ShownValue::Interface(interface) => write!(f, "{interface:016x}"),
        }
    }
}

/// A field of a message, as text.
#[derive(Drop)]
struct Field {
    name: String,
    value: String,
}

/// The fields that were told, and the text that remembers where memory was refused for one.
#[derive(Drop)]
struct FieldList<'a> {
    items: Vec<Field>,
    text: &'a mut NoteText,
}

impl FieldList<'_> {
    /// Adds a field, unless memory was refused for its name or its value.
    fn push(&mut self, name: Result<String, AllocError>, value: Result<String, AllocError>) {
        if let Some(name) = self.text.granted(name)
            && let Some(value) = self.text.granted(value)
            && self.items.push(Field { name, value }).is_err()
        {
            self.text.refuse();
        }
    }

    /// Adds a field whose value is shown so.
    fn add<D: Display>(&mut self, name: &str, value: &D) {
        let alloc = self.text.alloc();
        self.push(String::from_str(alloc, name), format!(in alloc; "{value}"));
    }

    /// Adds a payload: each entry of its table, and where its content has capabilities.
    fn payload(&mut self, name: &str, payload: &Payload) {
        let alloc = self.text.alloc();
        for (place, descriptor) in payload.descriptors.as_slice().iter().enumerate() {
            let entry = format!(in alloc; "{name}.capTable entry {place}");
            let descriptor = Shown(descriptor);
            self.push(entry, format!(in alloc; "{descriptor}"));
        }
        let fields = Shown(payload.fields.as_slice());
        let content = format!(in alloc; "{name}.content");
        self.push(content, format!(in alloc; "[{fields}]"));
    }

    /// Adds what a Return says of its call.
    fn outcome(&mut self, outcome: &Outcome) {
        let word = match outcome {
            Outcome::Results(_) => "results",
            Outcome::Exception => "exception",
            Outcome::Canceled => "canceled",
            Outcome::Elsewhere => "resultsSentElsewhere",
            Outcome::TakeFrom(_) => "takeFromOtherQuestion",
        };
        self.add("the outcome", &word);
        match outcome {
            Outcome::Results(payload) => self.payload(word, payload),
            Outcome::TakeFrom(question) => self.add(word, question),
            _ => {}
        }
    }

    /// Adds the fields of a message, its kind first.
    fn message(&mut self, message: &RpcMessage) {
        self.add("the kind", &kind_of(message));
        match message {
            RpcMessage::Bootstrap { question } => self.add("questionId", question),
            RpcMessage::Call {
                head,
                target,
                params,
            } => {
                self.add("questionId", &head.question);
                self.add("target", &Shown(target));
                self.add("interfaceId", &ShownValue::Interface(head.interface));
                self.add("methodId", &head.method);
                let results_to = if head.yourself { "yourself" } else { "caller" };
                self.add("sendResultsTo", &results_to);
                self.payload("params", params);
            }
            RpcMessage::Return { head, outcome } => {
                self.add("answerId", &head.answer);
                self.add("releaseParamCaps", &head.release_param_caps);
                self.add("noFinishNeeded", &head.light);
                self.outcome(outcome);
            }
            _ => self.later_message(message),
        }
    }

    /// Adds the fields of a message that tells of what other messages opened.
    fn later_message(&mut self, message: &RpcMessage) {
        match message {
            RpcMessage::Finish {
                question,
                release_result_caps,
            } => {
                self.add("questionId", question);
                self.add("releaseResultCaps", release_result_caps);
            }
            RpcMessage::Resolve {
                promise,
                resolution,
            } => {
                self.add("promiseId", promise);
                match resolution {
                    Resolution::Cap(descriptor) => self.add("cap", &Shown(descriptor)),
                    Resolution::Exception => self.add("cap", &"exception"),
                }
            }
            RpcMessage::Release { id, count } => {
                self.add("id", id);
                self.add("referenceCount", count);
            }
            RpcMessage::Disembargo {
                number,
                loopback,
                target,
            } => {
                let name = match loopback {
                    Loopback::Sender => "senderLoopback",
                    Loopback::Receiver => "receiverLoopback",
                };
                self.add("context", &name);
                self.add(name, number);
                self.add("target", &Shown(target));
            }
            _ => {}
        }
    }
}

/// A message of a kind, in words.
fn kind_of(message: &RpcMessage) -> &'static str {
    match message {
        RpcMessage::Bootstrap { .. } => "a Bootstrap",
        RpcMessage::Call { .. } => "a Call",
        RpcMessage::Return { .. } => "a Return",
        RpcMessage::Finish { .. } => "a Finish",
        RpcMessage::Resolve { .. } => "a Resolve",
        RpcMessage::Release { .. } => "a Release",
        RpcMessage::Disembargo { .. } => "a Disembargo",
        RpcMessage::Abort => "a Abort",
    }
}

/// The fields of a message, its kind before those that `frame` prints, in their order.
fn fields_of(text: &mut NoteText, message: &RpcMessage) -> Vec<Field> {
    let items = Vec::new(text.alloc());
    let mut fields = FieldList { items, text };
    fields.message(message);
    fields.items
}

/// Appends the note of two fields that differ, of which the first was sent.
fn put_fields(text: &mut NoteText, sent: &Field, received: &Field) {
    text.words("note: the first field that differs");
    let (one, other) = if sent.name.as_str() == received.name.as_str() {
        text.words(" is ");
        text.words(sent.name.as_str());
        (&sent.value, &received.value)
    } else {
        (&sent.name, &received.name)
    };
    text.tell_of(": @ was sent, ", &one.as_str(), &[]);
    text.tell_of("@ received\n", &other.as_str(), &[]);
}

/// Appends the note of the first of these fields that differs. Where none does that is read, the note says so.
fn put_first_field(text: &mut NoteText, sent: &[Field], received: &[Field]) {
    for (one, other) in sent.iter().zip(received.iter()) {
        if one.name.as_str() != other.name.as_str() || one.value.as_str() != other.value.as_str() {
            return put_fields(text, one, other);
        }
    }
    text.say(
        "both read alike, so what differs is something that isn't read, as data of parameters or results",
    );
}

/// Appends the note of the first field in which two messages differ.
pub(crate) fn put_field(text: &mut NoteText, sent: &RpcMessage, received: &RpcMessage) {
    let sent = fields_of(text, sent);
    let received = fields_of(text, received);
    put_first_field(text, sent.as_slice(), received.as_slice());
}
