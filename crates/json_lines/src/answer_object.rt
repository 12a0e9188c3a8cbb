//! The members of an answer.

use crate::fault_object::put_fault;
use crate::json_text::JsonText;
use crate::message_object::put_message;
use crate::wire_object::put_wire;
use case_report::Report;
use report_lines::{Answer, JoinLine, breach_code, code_of, word_of};
use vat_log::{Salvaged, SpelledLog};
use vat_rules::{SlimFinding, SlimOutcome, Why};

/// Writes that a record of a vat breaks what has this code.
fn put_broken(json: &mut JsonText<'_>, vat: u32, at: u64, code: &str) {
    json.text_member("kind", "no");
    json.member("record", at);
    json.text_member("rule", code);
    json.member("vat", vat);
}

/// Writes that a record of a vat isn't judged.
fn put_outside(json: &mut JsonText<'_>, vat: u32, at: u64, why: Why) {
    json.text_member("kind", "outside");
    json.member("record", at);
    json.member("vat", vat);
    json.text_member("why", word_of(why));
}

/// Writes what the audit of a vat's log found.
fn put_finding(json: &mut JsonText<'_>, finding: &SlimFinding) {
    let vat = finding.vat();
    match finding.outcome() {
        SlimOutcome::Good(story) => {
            json.member("delivered", story.delivered());
            json.text_member("kind", "good");
            json.member("records", finding.len());
            json.member("vat", vat);
        }
        SlimOutcome::Broken { at, rule } => put_broken(json, vat, *at, code_of(*rule)),
        SlimOutcome::Outside { at, why } => put_outside(json, vat, *at, *why),
    }
}

/// Writes what is answered of a case.
fn put_report(json: &mut JsonText<'_>, report: &Report) {
    match report {
        Report::Vat { vat, at, rule } => put_broken(json, *vat, *at, breach_code(*rule)),
        Report::OutsideVat { vat, at, why } => put_outside(json, *vat, *at, *why),
        Report::Link {
            connection,
            end,
            message,
        } => {
            json.member("connection", *connection);
            json.member("end", *end);
            json.text_member("kind", "no link");
            json.member("message", *message);
        }
        Report::OrderStep(step) => {
            json.text_member("kind", "no order step");
            json.member("step", *step);
        }
        Report::NoOrder => json.text_member("kind", "no order exists"),
        Report::Yes {
            vats,
            records,
            delivered,
            under_way,
            ..
        } => {
            json.member("delivered", *delivered);
            json.text_member("kind", "yes");
            json.member("records", *records);
            json.member("under_way", *under_way);
            json.member("vats", *vats);
        }
    }
}

/// Writes of which vat a log is, and how many records it has.
fn put_log(json: &mut JsonText<'_>, kind: &str, log: &SpelledLog) {
    json.text_member("kind", kind);
    json.member("records", log.len());
    json.member("vat", log.vat());
}

/// Writes what is answered of logs whose connections are joined.
fn put_join(json: &mut JsonText<'_>, line: &JoinLine) {
    let (kind, connection, vat) = match *line {
        JoinLine::Joined { vats, links } => {
            json.text_member("kind", "joined");
            json.member("links", links);
            json.member("vats", vats);
            return;
        }
        JoinLine::Unmatched { connection, vat } => ("unmatched", connection, vat),
        JoinLine::Ambiguous { connection, vat } => ("ambiguous", connection, vat),
    };
    json.member("connection", connection);
    json.text_member("kind", kind);
    json.member("vat", vat);
}

/// Writes the members of an answer.
pub(crate) fn put_answer(json: &mut JsonText<'_>, answer: &Answer) {
    match answer {
        Answer::Finding(finding) => put_finding(json, finding),
        Answer::Report(report) => put_report(json, report),
        Answer::Message(message) => put_message(json, message),
        Answer::Order(order) => {
            json.text_member("kind", "order");
            json.member("steps", order.as_slice().len());
        }
        Answer::NoOrder => put_report(json, &Report::NoOrder),
        Answer::Migrated(log) => put_log(json, "migrated", log),
        Answer::Salvaged(Salvaged { log, .. }) => {
            json.member("bytes", log.bytes().len());
            put_log(json, "salvaged", log);
        }
        Answer::Wire(line) => put_wire(json, line),
        Answer::Join(line) => put_join(json, line),
        Answer::Fault(fault) => put_fault(json, *fault),
    }
}
