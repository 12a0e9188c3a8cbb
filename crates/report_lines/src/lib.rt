//! From a value to its text and its exit status, and nothing else.
//!
//! It stands on `case_report`, `authority`, `wire_cut`, `run_model`, `case_files`, `case_book`, `merge_order`, `vat_rules`, `rpc_view`,
//! `cap_reader`, `vat_log` and `cap_frame`, whose values it shows. It asks no file, reads no bytes, audits nothing and takes
//! no memory. An [`Answer`] is shown as just the text that `specs/Lines.antt` gives it, a [`Fault`] as that of
//! `specs/Faults.antt`, a message as that of `specs/MessageText.antt`, a [`NumberedRecord`] as that of
//! `specs/RecordText.antt`, an edge of a run ([`ShownEdge`]) as that of `specs/EdgeText.antt`, or of
//! `specs/DotText.antt` where it is a [`DotEdge`], a step ([`NumberedStep`]) as
//! that of `specs/StepText.antt`; a value from below that is [`Shown`] as its part of these. What is
//! written as a line is one of these ([`ShownLine`], `specs/ShownLines.antt`); `status` is just the exit status beside an answer. A line is the text and its end. What
//! people are told of a rule or of why a record isn't judged ([`rule_sentence`], [`why_sentence`], [`report_sentence`]) is
//! a line too, and no contract says which.
#![tactic(auto)]

mod answer;
mod dot_text;
mod edge_text;
mod fault;
mod fault_name;
mod finding_text;
mod join_text;
mod message_text;
mod record_text;
mod report_text;
mod sentences;
mod shown;
mod shown_line;
mod step_text;
mod wire_text;

pub use answer::Answer;
pub use dot_text::{DotBound, DotEdge};
pub use edge_text::ShownEdge;
pub use fault::Fault;
pub use finding_text::{code_of, word_of};
pub use join_text::JoinLine;
pub use message_text::loopback_text;
pub use record_text::NumberedRecord;
pub use report_text::{ShownReport, breach_code};
pub use sentences::{report_sentence, rule_sentence, why_sentence};
pub use shown::Shown;
pub use shown_line::ShownLine;
pub use step_text::{NumberedStep, call_of_step, kind_words};
pub use wire_text::end_name;
