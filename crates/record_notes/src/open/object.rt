//! What is open at the end, as a JSON object (docs/FORMATS.md).

use crate::open::call_ways::{Hop, Way, way_of};
use crate::open::open_case::{EndedLog, OpenCase};
use crate::open::under_way::{UnderWay, all_under_way};
use json_lines::JsonText;
use left_open::Open;
use std::alloc::AllocError;
use vat_view::TableKey;

/// The name of the list that something open stands in.
fn list_of(left: &Open) -> &'static str {
    match left {
        Open::Loopback { .. } => "loopbacks",
        Open::Number { .. } => "numbers",
        Open::Promise { .. } => "promises",
        Open::Question { .. } => "questions",
        Open::Unfinished { .. } => "unfinished",
    }
}

/// Writes what a record opened, under a number of this name.
fn put_opened(json: &mut JsonText<'_>, at: usize, key: TableKey, name: &str) {
    json.member("connection", key.connection);
    json.member(name, key.number);
    json.member("record", at);
    json.member("sent", key.ours);
}

/// Writes the records that bring a call further.
fn put_hops(json: &mut JsonText<'_>, hops: &[Hop]) {
    json.begin_member("way", "[");
    for hop in hops {
        let (word, _) = hop.does.words();
        json.begin("{");
        json.text_member("does", word);
        json.member("record", hop.at);
        json.member("vat", hop.vat);
        json.end("}");
    }
    json.end("]");
}

/// Writes where a call of this vat stands, and how far it came.
fn put_way(json: &mut JsonText<'_>, vat: u32, way: &Way) {
    let (word, _) = way.stands.words();
    json.text_member("stands", word);
    match way.stands_at {
        Some(vat) => json.member("stands_at", vat),
        None => json.member("stands_at", "null"),
    }
    json.member("vat", vat);
    put_hops(json, way.hops.as_slice());
}

/// Writes the members of something that is open at the end of a log.
fn put_left(json: &mut JsonText<'_>, told: EndedLog<'_, '_>, left: Open) {
    match left {
        Open::Question { question, call, at } => {
            json.member("call", call);
            put_opened(json, at, question, "question");
            match way_of(told, question, call, at) {
                Ok(way) => return put_way(json, told.vat(), &way),
                Err(AllocError) => json.refuse(),
            }
        }
        Open::Unfinished { question, call, at } => {
            json.member("call", call);
            put_opened(json, at, question, "question");
        }
        Open::Loopback { number, at } => put_opened(json, at, number, "embargo"),
        Open::Promise { reference, at } => {
            json.member("record", at);
            json.member("reference", reference);
        }
        Open::Number {
            number,
            count,
            unresolved,
            at,
            ..
        } => {
            json.member("connection", number.connection);
            json.member("count", count);
            json.member("id", number.number);
            json.text_member("kind", if number.ours { "export" } else { "import" });
            json.member("record", at);
            json.member("unresolved", unresolved);
        }
    }
    json.member("vat", told.vat());
}

/// Writes the list of this name, of what is open in a case, where it is told.
fn put_list(json: &mut JsonText<'_>, case: &OpenCase<'_>, name: &str) {
    json.begin_member(name, "[");
    for log in case.logs.iter() {
        let told = EndedLog { case, log };
        for left in log.list.iter() {
            if list_of(left) == name && told.tells(left) {
                json.begin("{");
                put_left(json, told, *left);
                json.end("}");
            }
        }
    }
    json.end("]");
}

/// Writes the list of what was sent and never received.
fn put_under_way(json: &mut JsonText<'_>, all: &[UnderWay]) {
    json.begin_member("under_way", "[");
    for under_way in all {
        json.begin("{");
        json.member("connection", under_way.connection);
        json.member("messages", under_way.count);
        json.member("record", under_way.first);
        json.member("to", under_way.receiver);
        json.member("vat", under_way.sender);
        json.end("}");
    }
    json.end("]");
}

/// The text of the object of all that is open at the end of a case whose report is yes, or of a log that is good.
pub fn open_object(case: &OpenCase<'_>) -> Result<String, AllocError> {
    let under_way = all_under_way(case)?;
    let mut json = JsonText::new(case.alloc, None);
    json.begin("{");
    for name in ["loopbacks", "numbers", "promises", "questions"] {
        put_list(&mut json, case, name);
    }
    put_under_way(&mut json, under_way.as_slice());
    put_list(&mut json, case, "unfinished");
    json.end("}");
    json.into_text()
}
