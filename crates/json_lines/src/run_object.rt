//! The members of a step and of an edge of a run.

use crate::json_text::JsonText;
use authority::Edge;
use report_lines::{NumberedStep, call_of_step, kind_words};
use run_model::{Cap, Name, vat_of};

/// Writes a member that is a call, by its maker and that vat's number of it.
fn put_call(json: &mut JsonText<'_>, name: Name) {
    json.begin_member("call", "{");
    json.member("call", name.number);
    json.member("vat", name.maker);
    json.end("}");
}

/// Writes the kind of what a vat has, its number there under this name, and the vat.
fn put_own(json: &mut JsonText<'_>, kind: &str, name: &str, number: u64, vat: u32) {
    json.text_member("kind", kind);
    json.member(name, number);
    json.member("vat", vat);
}

/// Writes the members of an edge. Its capability is as all vats name it.
pub(crate) fn put_edge(json: &mut JsonText<'_>, edge: &Edge) {
    json.begin_member("capability", "{");
    match &edge.cap {
        Cap::Object(vat, object) => put_own(json, "object", "object", *object, *vat),
        Cap::Promise(vat, promise) => put_own(json, "promise", "reference", *promise, *vat),
        Cap::Field(call, path) => {
            put_call(json, *call);
            json.text_member("kind", "field");
            json.numbers_member("path", path.as_slice());
        }
        Cap::Nothing => json.text_member("kind", "none"),
    }
    json.end("}");
    put_own(json, "edge", "record", edge.at_record, edge.vat);
}

/// Writes the members of a step. It has a message where it sends or receives one, and a call where it names one.
pub(crate) fn put_step(json: &mut JsonText<'_>, shown: NumberedStep<'_>) {
    let NumberedStep { at, record, step } = shown;
    let (does, message) = kind_words(step);
    if let Some(call) = call_of_step(step) {
        put_call(json, call);
    }
    json.text_member("does", does);
    json.text_member("kind", "step");
    if let Some(message) = message {
        json.text_member("message", message);
    }
    json.member("record", record);
    json.member("step", at);
    json.member("vat", vat_of(step));
}
