//! What is heard of an answer, for what people are told beside it. No answer depends on it.

use crate::cases::link_notes::Arrival;
use crate::joins::JoinNote;
use crate::row_limit::RowLimit;
use case_book::Findings;
use case_report::{Breach, Report, WireAnswer, WireLogs};
use report_lines::{Answer, Fault, report_sentence};
use std::mem;
use std::sync::Arc;
use vat_log::{LogError, Salvaged};
use vat_rules::{SlimFinding, SlimOutcome};

/// What was heard of the answer that was said last. Records are counted from 0.
#[derive(Clone, Copy)]
pub(crate) enum HeardAnswer {
    /// Nothing that people are told more of.
    Nothing,
    /// A fault of the input.
    Fault(Fault),
    /// A record breaks a rule; what that asks, as a sentence.
    Broken {
        vat: u32,
        at: u64,
        breach: Breach,
        rule: &'static str,
    },
    /// A record isn't judged; why, as a sentence.
    Outside {
        vat: u32,
        at: u64,
        why: &'static str,
    },
    /// A frame was received that wasn't sent so; what a link asks, as a sentence.
    Link {
        arrival: Arrival,
        rule: &'static str,
    },
    /// No order fits, or the one that is given doesn't; what that asks, as a sentence.
    NoOrder(&'static str),
    /// What was found of the bytes of a connection.
    Wire,
    /// What was found of logs whose connections are joined.
    Join,
    /// A log was salvaged, and a part of it is left out: the fault of its bytes, and how many its header and whole records have.
    Cut {
        fault: LogError,
        end: usize,
    },
    /// The log of a vat is good.
    GoodLog,
    /// The report of a case is yes.
    Yes,
}

impl HeardAnswer {
    /// Whether what was found of logs and links is told beside it.
    pub(crate) fn is_of_finding(self) -> bool {
        matches!(
            self,
            HeardAnswer::Broken { .. } | HeardAnswer::Outside { .. } | HeardAnswer::Link { .. }
        )
    }
}

/// What was heard of the answer that was said last, and what was found of the case that it judges, or of the connection.
#[derive(Drop)]
pub struct Heard {
    pub(crate) told: HeardAnswer,
    pub(crate) wire: Option<WireAnswer>,
    /// What was found of a case beside its report.
    pub findings: Option<Findings>,
    /// The answer is the line of a case, of which nothing is kept.
    pub is_of_case: bool,
    /// What people are told of logs whose connections are joined.
    pub join: Option<JoinNote>,
    /// Fewer rows are drawn than were asked for.
    pub limit: Option<RowLimit>,
}

/// What is heard of the report of a case.
fn of_report(report: &Report) -> HeardAnswer {
    let Some(rule) = report_sentence(report) else {
        return HeardAnswer::Yes;
    };
    match *report {
        Report::Vat {
            vat,
            at,
            rule: breach,
        } => HeardAnswer::Broken {
            vat,
            at,
            breach,
            rule,
        },
        Report::OutsideVat { vat, at, .. } => HeardAnswer::Outside { vat, at, why: rule },
        Report::Link {
            connection,
            end,
            message,
        } => {
            let arrival = Arrival::new(connection, end, message);
            HeardAnswer::Link { arrival, rule }
        }
        Report::OrderStep(_) | Report::NoOrder => HeardAnswer::NoOrder(rule),
        Report::Yes { .. } => HeardAnswer::Yes,
    }
}

/// What is heard of the finding of a log.
fn of_finding(finding: &SlimFinding) -> HeardAnswer {
    let vat = finding.vat();
    match *finding.outcome() {
        SlimOutcome::Good(_) => HeardAnswer::GoodLog,
        SlimOutcome::Broken { at, rule } => {
            let rule = Breach::Rule(rule);
            of_report(&Report::Vat { vat, at, rule })
        }
        SlimOutcome::Outside { at, why } => of_report(&Report::OutsideVat { vat, at, why }),
    }
}

/// What is heard of what is whole of a log.
fn of_salvaged(found: &Salvaged) -> HeardAnswer {
    let end = found.log.bytes().len();
    found.fault.map_or(
        HeardAnswer::Nothing,
        |fault| HeardAnswer::Cut { fault, end },
    )
}

/// Both logs once more. None where one has too many owners to count.
fn shared(logs: &WireLogs) -> Option<WireLogs> {
    Some(WireLogs {
        log_of_a: Arc::try_clone(&logs.log_of_a).ok()?,
        log_of_b: Arc::try_clone(&logs.log_of_b).ok()?,
    })
}

impl Heard {
    /// Before any answer.
    pub fn new() -> Heard {
        Heard {
            told: HeardAnswer::Nothing,
            findings: None,
            is_of_case: false,
            wire: None,
            join: None,
            limit: None,
        }
    }

    /// Hears an answer, in the place of what was heard before.
    pub fn hear(&mut self, answer: &Answer) {
        self.told = match answer {
            Answer::Finding(finding) => of_finding(finding),
            Answer::Report(report) => of_report(report),
            Answer::NoOrder => of_report(&Report::NoOrder),
            Answer::Salvaged(found) => of_salvaged(found),
            Answer::Wire(_) => HeardAnswer::Wire,
            Answer::Join(_) => HeardAnswer::Join,
            Answer::Fault(fault) => HeardAnswer::Fault(*fault),
            Answer::Message(_) | Answer::Order(_) | Answer::Migrated(_) => HeardAnswer::Nothing,
        };
    }

    /// Keeps what was found of a connection, with its logs.
    pub fn keep_wire(&mut self, answer: &WireAnswer) {
        self.wire = Some(WireAnswer {
            line: answer.line,
            logs: answer.logs.as_ref().and_then(shared),
            full: None,
            frames: answer.frames,
            left: answer.left,
            waiting: answer.waiting,
            overtaking: answer.overtaking,
        });
    }

    /// Leaves what was heard to the system, which takes all memory at once where the program ends: to give it back here, record
    /// by record, takes longer.
    pub fn leave(self) {
        mem::forget(self);
    }
}
