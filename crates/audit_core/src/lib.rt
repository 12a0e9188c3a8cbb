//! The audit of a case: the logs of several vats and the links between them, judged together.
//!
//! It stands on `case_book`, whose book keeps what is found for each piece, on `merge_order` for orders, and on `call_trace`,
//! which names the run of good logs. Which report a case has, with an order or without one, is said in `specs/Report.antt`;
//! [`audit`], [`judge`] and [`judge_unordered`] answer just that. What a yes means stands in `specs/Headline.antt`, clause by
//! clause, and each of the three cites it (clause `headline`), as does [`audit_with_findings`], which also answers what was found of
//! each log and each link; when a case isn't audited, in `specs/Refusals.antt`. What is answered of a case whose run isn't kept, its
//! line alone, stands in `specs/Lines.antt`, for those who read its logs in step. Laws: good
//! findings of a case and an order that fits are such as name a run ([`good_findings_name_a_run`]), a case has one report by
//! an order ([`a_case_has_one_report`]), also with logs migrated ([`versions_change_nothing`]), and one line, whichever order fits
//! ([`a_case_has_one_line`]), and one graph ([`a_case_has_one_graph`]); and where it says yes, it says the same yes with logs
//! raised ([`raising_keeps_a_yes`]), and more of the run where all logs are of versions 1 and 2
//! ([`a_yes_of_first_editions_leads`]).
#![tactic(auto)]

mod auditing;
mod counts;
mod error;
mod first_bad;
mod found_run;
mod gate;
mod judging;
mod laws;
mod log_count;
mod with_findings;
mod working;

pub use auditing::{MAX_WORKERS, audit, find_alone};
pub use case_report::{Breach, Report};
pub use error::AuditError;
pub use found_run::run_of_findings;
pub use gate::Gate;
pub use judging::{judge, judge_unordered};
pub use laws::{
    a_case_has_one_graph, a_case_has_one_line, a_case_has_one_report,
    a_yes_of_first_editions_leads, good_findings_name_a_run, raising_keeps_a_yes,
    versions_change_nothing,
};
pub use log_count::count_in_log;
pub use with_findings::audit_with_findings;
