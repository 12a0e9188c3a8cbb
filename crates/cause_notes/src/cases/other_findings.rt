//! What was found of the other logs and of the links of a case.

use crate::cases::link_notes::{Arrival, put_counterpart, put_received};
use case_book::Findings;
use case_report::{Breach, Report};
use link_check::{LinkFinding, LinkOutcome};
use past_records::NoteText;
use record_notes::{Logs, put_record};
use report_lines::Answer;
use vat_rules::{Outcome, VatFinding};

/// How many findings of a kind are told of, at most.
const MOST: usize = 16;

/// Appends a report behind these words.
fn put_report(text: &mut NoteText, words: &str, report: Report) {
    text.words(words);
    text.tell_of("@\n", &Answer::Report(report), &[]);
}

/// Appends the notes of a link on which a message was received that wasn't sent so.
fn put_link(text: &mut NoteText, logs: &Logs<'_>, arrival: Arrival) {
    let words =
        "note: a message was received that wasn't sent so, and what follows may come of that: ";
    put_report(text, words, arrival.report());
    put_received(text, logs, arrival);
    put_counterpart(text, logs, arrival);
}

/// The message that broke a link.
fn arrival_of(link: &LinkFinding) -> Option<Arrival> {
    match link.outcome() {
        LinkOutcome::Broken { end, message } => Some(Arrival::new(link.connection(), end, message)),
        LinkOutcome::Good { .. } => None,
    }
}

/// Appends the notes of each link on which a message was received that wasn't sent so, but for the one that is told of already.
pub(crate) fn put_links(text: &mut NoteText, logs: &Logs<'_>, told: Option<u32>) {
    let Some(findings) = logs.findings else {
        return;
    };
    let arrivals = findings.links().iter().filter_map(arrival_of);
    let others = arrivals.filter(|one| told != Some(one.connection));
    for arrival in others.take(MOST) {
        put_link(text, logs, arrival);
    }
}

/// Whether a log is good by itself.
fn is_good(finding: &VatFinding) -> bool {
    matches!(finding.outcome(), Outcome::Good(_))
}

/// Appends the notes of a log that isn't good, or is outside.
fn put_vat(text: &mut NoteText, logs: &Logs<'_>, finding: &VatFinding) {
    let vat = finding.log().vat();
    let (at, report) = match *finding.outcome() {
        Outcome::Good(_) => return,
        Outcome::Broken { at, rule } => {
            let rule = Breach::Rule(rule);
            (at, Report::Vat { vat, at, rule })
        }
        Outcome::Outside { at, why } => (at, Report::OutsideVat { vat, at, why }),
    };
    put_report(text, "note: in another log: ", report);
    if let Some(name) = logs.name_of(vat) {
        put_record(text, name, finding.log(), at as usize);
    }
}

/// Appends the notes of each other log that isn't good, or is outside.
fn put_bad_vats(text: &mut NoteText, logs: &Logs<'_>, findings: &Findings, told: u32) {
    let vats = findings.vats().iter();
    let bad = vats.filter(|one| one.log().vat() != told && !is_good(one));
    for finding in bad.take(MOST) {
        put_vat(text, logs, finding);
    }
}

/// Appends the note of the logs that are good by themselves.
fn put_good_vats(text: &mut NoteText, findings: &Findings) {
    let mut any = false;
    let good = findings.vats().iter().filter(|finding| is_good(finding));
    for finding in good.take(MOST) {
        text.words(if any {
            ", "
        } else {
            "note: good by themselves: "
        });
        text.tell("vat #", &[u64::from(finding.log().vat())]);
        any = true;
    }
    if any {
        text.words("\n");
    }
}

/// Appends the note of the connections on which all that was received was sent so.
fn put_good_links(text: &mut NoteText, findings: &Findings) {
    let mut any = false;
    let links = findings.links().iter();
    let good = links.filter(|link| matches!(link.outcome(), LinkOutcome::Good { .. }));
    for link in good.take(MOST) {
        text.words(if any {
            ", "
        } else {
            "note: received as sent: "
        });
        text.tell("connection #", &[u64::from(link.connection())]);
        any = true;
    }
    if any {
        text.words("\n");
    }
}

/// Appends the notes of what was found of the other logs, and of the logs and links that are good.
pub(crate) fn put_others(text: &mut NoteText, logs: &Logs<'_>, told: u32) {
    if let Some(findings) = logs.findings {
        put_bad_vats(text, logs, findings, told);
        put_good_vats(text, findings);
        put_good_links(text, findings);
    }
}
