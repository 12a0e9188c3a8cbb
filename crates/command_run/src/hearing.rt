//! Hearing what is answered, for what people are told beside it. No answer depends on it.

use case_book::Findings;
use case_report::WireAnswer;
use log_ends::LogEnd;
use report_lines::Answer;
use std::mem;

/// What hears the answers of a command, and what was found on the way to them.
pub trait Hears {
    /// Hears an answer, which is about to be said.
    fn hear(&mut self, answer: &Answer);

    /// Hears that the answer is the line of a case, of which nothing is kept.
    fn hear_case(&mut self);

    /// Takes what was found of a case beside its report.
    fn keep_findings(&mut self, findings: Findings);

    /// Hears what was found of a connection.
    fn hear_wire(&mut self, found: &WireAnswer);

    /// Hears that two ends of connections were alike, and each was paired by its place.
    fn hear_alike(&mut self, first: LogEnd, second: LogEnd);

    /// Hears that no end is left for this one.
    fn hear_unmatched(&mut self, end: LogEnd);

    /// Hears that several ends fit this one.
    fn hear_ambiguous(&mut self, end: LogEnd);

    /// Hears that so many rows of a picture were asked for, and that fewer are drawn at most.
    fn hear_limit(&mut self, asked: u64, most: u64);
}

/// What hears nothing. What it takes it leaves to the system, which takes all memory at once where the program ends.
#[derive(Drop)]
pub struct Unheard;

impl Hears for Unheard {
    fn hear(&mut self, _answer: &Answer) {}

    fn hear_case(&mut self) {}

    fn keep_findings(&mut self, findings: Findings) {
        mem::forget(findings);
    }

    fn hear_wire(&mut self, _found: &WireAnswer) {}

    fn hear_alike(&mut self, _first: LogEnd, _second: LogEnd) {}

    fn hear_unmatched(&mut self, _end: LogEnd) {}

    fn hear_ambiguous(&mut self, _end: LogEnd) {}

    fn hear_limit(&mut self, _asked: u64, _most: u64) {}
}
