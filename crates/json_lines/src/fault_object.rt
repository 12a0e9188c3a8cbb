//! The members of a fault.

use crate::json_text::JsonText;
use case_book::{CaseError, TieFault};
use merge_order::OrderError;
use report_lines::{Fault, Shown};
use std::fmt::Display;
use vat_log::LogError;

/// Writes the name of a fault, and its kind.
fn put_named<D: Display>(json: &mut JsonText<'_>, kind: &str, fault: &D) {
    json.shown_member("fault", fault);
    json.text_member("kind", kind);
}

/// Writes a fault that has an offset.
fn put_offset(json: &mut JsonText<'_>, kind: &str, fault: &str, offset: u64) {
    put_named(json, kind, &fault);
    json.member("offset", offset);
}

/// Writes a fault of a case that a connection has.
fn put_connection(json: &mut JsonText<'_>, fault: &str, connection: u32) {
    json.member("connection", connection);
    put_named(json, "bad case", &fault);
}

/// Writes why bytes aren't a log.
fn put_log(json: &mut JsonText<'_>, fault: LogError) {
    match fault {
        LogError::Short(at) => put_offset(json, "bad log", "Short", at),
        LogError::BadKind(at) => put_offset(json, "bad log", "BadKind", at),
        LogError::ZeroNumber(at) => put_offset(json, "bad log", "ZeroNumber", at),
        fault => put_named(json, "bad log", &Shown(fault)),
    }
}

/// Writes why logs and links make no case.
fn put_refused(json: &mut JsonText<'_>, refusal: CaseError) {
    match refusal {
        CaseError::SameVat(vat) => {
            put_named(json, "bad case", &"SameVat");
            json.member("vat", vat);
        }
        CaseError::SameLink(connection) => put_connection(json, "SameLink", connection),
        refusal => put_named(json, "bad case", &Shown(refusal)),
    }
}

/// Writes the members of a fault. One that has no name is its kind.
pub(crate) fn put_fault(json: &mut JsonText<'_>, fault: Fault) {
    match fault {
        Fault::Frame(fault) => put_named(json, "bad frame", &Shown(fault)),
        Fault::Read(fault) => put_named(json, "bad read", &Shown(fault)),
        Fault::Outside(why) => {
            json.text_member("kind", "outside");
            json.shown_member("why", &Shown(why));
        }
        Fault::Log(fault) => put_log(json, fault),
        Fault::Order(OrderError::Short(at)) => put_offset(json, "bad order", "Short", at),
        Fault::Order(fault) => put_named(json, "bad order", &Shown(fault)),
        Fault::Refused(refusal) => put_refused(json, refusal),
        Fault::Untied(TieFault::MissingLog(at)) => put_connection(json, "MissingLog", at),
        Fault::Untied(TieFault::SameEnds(at)) => put_connection(json, "SameEnds", at),
        fault => json.shown_member("kind", &fault),
    }
}
