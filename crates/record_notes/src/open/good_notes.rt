//! The notes of what is open at the end of good logs.

use crate::open::call_ways::{put_way, way_of};
use crate::open::open_case::{EndedLog, OpenCase};
use crate::open::open_log::Aborted;
use crate::open::under_way::put_under_way;
use crate::open_counts::OpenCounts;
use left_open::Open;
use past_records::{NoteText, NumberText, put_reason};
use std::alloc::Global;
use vat_view::TableKey;

/// How many of a kind are told at most.
pub(crate) const MOST: usize = 5;

/// Appends the note of a question without a Return: its call, how far that came, and where it stands.
fn put_question(
    text: &mut NoteText,
    told: EndedLog<'_, '_>,
    question: TableKey,
    call: u64,
    at: usize,
) {
    let word = if question.ours { "sent" } else { "received" };
    let vat = u64::from(told.vat());
    let sentence = "note: call # of vat # has no Return: it was @";
    text.tell_of(sentence, &word, &[call, vat]);
    let sentence = " by record # as question @";
    text.tell_of(sentence, &NumberText(question), &[at as u64]);
    if let Some(way) = text.granted(way_of(told, question, call, at)) {
        put_way(text, &way);
    }
    text.words("\n");
}

/// Appends the note of a question without a Return, a loopback without an echo, or a promise neither kept nor broken.
fn put_left(text: &mut NoteText, told: EndedLog<'_, '_>, left: &Open) {
    let vat = u64::from(told.vat());
    match left {
        Open::Question { question, call, at } => put_question(text, told, *question, *call, *at),
        Open::Loopback { number, at } => {
            let word = if number.ours { "sent" } else { "received" };
            text.tell_of("note: loopback @, ", &NumberText(*number), &[]);
            let sentence = "@ by record # of vat #, has no echo\n";
            text.tell_of(sentence, &word, &[*at as u64, vat]);
        }
        Open::Promise { reference, at } => text.note(
            "the promise of reference #, vowed by record # of vat #, was neither kept nor broken",
            &[*reference, *at as u64, vat],
        ),
        Open::Unfinished { .. } | Open::Number { .. } => {}
    }
}

/// Appends the notes of what is open of a kind at the end of a log: of the first few, and how many more there are.
fn put_kind<F: Fn(&Open) -> bool>(text: &mut NoteText, told: EndedLog<'_, '_>, kind: &str, is_of: F)
    requires { F.IsAlwaysCallable is_of }
{
    let list = told.log.list.as_slice();
    let is_told = |left: &Open| is_of(left) && told.tells(left);
    for left in list.iter().filter(|left| is_told(left)).take(MOST) {
        put_left(text, told, left);
    }
    let count = list.iter().filter(|left| is_told(left)).count();
    put_more(text, told.vat(), count, kind)
}

/// Appends the note of how many more of a kind a log has, if it has more than are told.
fn put_more(text: &mut NoteText, vat: u32, count: usize, kind: &str) {
    if count > MOST {
        let more = count.saturating_sub(MOST);
        text.note_of("vat # has # more @", &kind, &[u64::from(vat), more as u64]);
    }
}

/// Appends the note of an abort, with its reason.
fn put_abort(text: &mut NoteText, told: EndedLog<'_, '_>, abort: Aborted) {
    let word = if abort.sent { "sent" } else { "received" };
    let (vat, connection) = (u64::from(told.vat()), u64::from(abort.connection));
    let sentence = "note: record # of vat # @ an abort of connection #";
    text.tell_of(sentence, &word, &[abort.at as u64, vat, connection]);
    put_reason(text, told.log.log, abort.at, ": ");
    text.words("\n");
}

/// Appends the notes of the aborts of a log.
fn put_aborts(text: &mut NoteText, told: EndedLog<'_, '_>) {
    let aborts = told.log.aborts.as_slice();
    let is_told = |abort: &Aborted| told.is_told(abort.sent, abort.connection);
    for abort in aborts.iter().filter(|abort| is_told(abort)).take(MOST) {
        put_abort(text, told, *abort);
    }
    let count = aborts.iter().filter(|abort| is_told(abort)).count();
    put_more(text, told.vat(), count, "aborts")
}

/// Appends the notes of what is open at the end of a log, and of its aborts, which may be why.
fn put_log(text: &mut NoteText, told: EndedLog<'_, '_>) {
    put_aborts(text, told);
    let kind = "questions without a Return";
    put_kind(text, told, kind, |one| matches!(one, Open::Question { .. }));
    let kind = "loopbacks without an echo";
    put_kind(text, told, kind, |one| matches!(one, Open::Loopback { .. }));
    let kind = "promises that were neither kept nor broken";
    put_kind(text, told, kind, |one| matches!(one, Open::Promise { .. }));
    let counts = OpenCounts::of(told.log.list.as_slice()).held();
    if counts.is_any() {
        let vat = [u64::from(told.vat())];
        text.note_of("open at the end of vat #: @", &counts, &vat);
    }
}

/// Appends the notes of what is open at the end of a case whose report is yes, or of a log that is good.
pub fn put_good(text: &mut NoteText, case: &OpenCase<'_>) {
    put_under_way(text, case);
    for log in case.logs.iter() {
        put_log(text, EndedLog { case, log });
    }
}
