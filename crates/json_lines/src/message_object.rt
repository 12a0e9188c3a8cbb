//! The members of a message.

use crate::json_text::JsonText;
use cap_frame::Path;
use report_lines::loopback_text;
use rpc_view::{
    CallHead, Descriptor, Outcome, Payload, Resolution, ReturnHead, RpcMessage, Target,
};

/// Writes a kind and the number that is alone beside it.
fn put_numbered(json: &mut JsonText<'_>, kind: &str, id: u32) {
    json.member("id", id);
    json.text_member("kind", kind);
}

/// Writes what stands at a path of a question's answer.
fn put_promised(json: &mut JsonText<'_>, kind: &str, question: u32, path: &Path) {
    json.text_member("kind", kind);
    json.numbers_member("path", path.as_slice());
    json.member("question", question);
}

/// Writes what a call or an embargo goes to.
fn put_target(json: &mut JsonText<'_>, target: &Target) {
    json.begin_member("target", "{");
    match target {
        Target::Imported(id) => put_numbered(json, "import", *id),
        Target::Promised(question, path) => put_promised(json, "answer", *question, path),
    }
    json.end("}");
}

/// Writes the members of an entry of a capability table.
fn put_descriptor(json: &mut JsonText<'_>, descriptor: &Descriptor) {
    match descriptor {
        Descriptor::NoCap => json.text_member("kind", "none"),
        Descriptor::SenderHosted(id) => put_numbered(json, "senderHosted", *id),
        Descriptor::SenderPromise(id) => put_numbered(json, "senderPromise", *id),
        Descriptor::ReceiverHosted(id) => put_numbered(json, "receiverHosted", *id),
        Descriptor::ReceiverAnswer(question, path) => {
            put_promised(json, "receiverAnswer", *question, path);
        }
    }
}

/// Writes a capability table.
fn put_table(json: &mut JsonText<'_>, descriptors: &[Descriptor]) {
    json.begin_member("cap_table", "[");
    for descriptor in descriptors {
        json.begin("{");
        put_descriptor(json, descriptor);
        json.end("}");
    }
    json.end("]");
}

/// Writes the capabilities of a payload's content.
fn put_fields(json: &mut JsonText<'_>, fields: &[(Path, u32)]) {
    json.begin_member("fields", "[");
    for (path, index) in fields {
        json.begin("{");
        json.member("index", *index);
        json.numbers_member("path", path.as_slice());
        json.end("}");
    }
    json.end("]");
}

/// Writes a member that is a payload.
fn put_payload(json: &mut JsonText<'_>, name: &str, payload: &Payload) {
    json.begin_member(name, "{");
    put_table(json, payload.descriptors.as_slice());
    put_fields(json, payload.fields.as_slice());
    json.end("}");
}

/// Writes what came of a call.
fn put_outcome(json: &mut JsonText<'_>, outcome: &Outcome) {
    json.begin_member("outcome", "{");
    match outcome {
        Outcome::Results(results) => {
            json.text_member("kind", "results");
            put_payload(json, "results", results);
        }
        Outcome::Exception => json.text_member("kind", "exception"),
        Outcome::Canceled => json.text_member("kind", "canceled"),
        Outcome::Elsewhere => json.text_member("kind", "resultsSentElsewhere"),
        Outcome::TakeFrom(question) => {
            json.text_member("kind", "takeFromOtherQuestion");
            json.member("question", *question);
        }
    }
    json.end("}");
}

/// Writes what a promise became.
fn put_resolution(json: &mut JsonText<'_>, resolution: &Resolution) {
    json.begin_member("resolution", "{");
    match resolution {
        Resolution::Cap(descriptor) => put_descriptor(json, descriptor),
        Resolution::Exception => json.text_member("kind", "exception"),
    }
    json.end("}");
}

/// Writes a Call, without where it goes.
fn put_call(json: &mut JsonText<'_>, head: CallHead, params: &Payload) {
    json.interface_members(head.interface, head.method);
    json.text_member("kind", "call");
    json.method_members(head.interface, head.method);
    put_payload(json, "params", params);
    json.member("question", head.question);
    let results_to = if head.yourself { "yourself" } else { "caller" };
    json.text_member("send_results_to", results_to);
}

/// Writes a Return.
fn put_return(json: &mut JsonText<'_>, head: ReturnHead, outcome: &Outcome) {
    json.member("answer", head.answer);
    json.text_member("kind", "return");
    json.member("no_finish_needed", head.light);
    put_outcome(json, outcome);
    json.member("release_param_caps", head.release_param_caps);
}

/// Writes the members of a message.
pub(crate) fn put_message(json: &mut JsonText<'_>, message: &RpcMessage) {
    match message {
        RpcMessage::Bootstrap { question } => {
            json.text_member("kind", "bootstrap");
            json.member("question", *question);
        }
        RpcMessage::Call {
            head,
            target,
            params,
        } => {
            put_call(json, *head, params);
            put_target(json, target);
        }
        RpcMessage::Return { head, outcome } => put_return(json, *head, outcome),
        _ => put_later_message(json, message),
    }
}

/// Writes the members of a message that tells of what other messages opened.
fn put_later_message(json: &mut JsonText<'_>, message: &RpcMessage) {
    match message {
        RpcMessage::Finish {
            question,
            release_result_caps,
        } => {
            json.text_member("kind", "finish");
            json.member("question", *question);
            json.member("release_result_caps", *release_result_caps);
        }
        RpcMessage::Resolve {
            promise,
            resolution,
        } => {
            json.text_member("kind", "resolve");
            json.member("promise", *promise);
            put_resolution(json, resolution);
        }
        RpcMessage::Release { id, count } => {
            json.member("count", *count);
            json.member("id", *id);
            json.text_member("kind", "release");
        }
        RpcMessage::Disembargo {
            number,
            loopback,
            target,
        } => {
            json.text_member("context", loopback_text(*loopback));
            json.member("id", *number);
            json.text_member("kind", "disembargo");
            put_target(json, target);
        }
        RpcMessage::Abort => json.text_member("kind", "abort"),
        _ => {}
    }
}
