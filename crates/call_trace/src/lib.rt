//! From good logs to one run of the machine: [`name_run`] makes it. That good logs have a run is a law
//! ([`good_findings_have_a_run`]); of logs that are all of versions 1 and 2 the run sends only what is led to
//! ([`first_editions_lead`]). [`order_fault`] finds where a run breaks the order of calls.
//!
//! It stands on `vat_rules`, which says when a log is good, on `vat_view` for what the numbers of a log stand for, on
//! `agree` for what passed on a connection, on `merge_order` and `link_check`, and on `run_model` for runs. How a log
//! names calls and capabilities is said in `specs/Naming.antt` and `specs/Said.antt`, when it is its vat's part of a run
//! in `specs/Part.antt`, when numbers are used in their lives in `specs/InLife.antt`, and how the counts of both ends
//! balance in `specs/Balance.antt`; what is asked of findings in `specs/Findings.antt`, which records an order takes of
//! their logs in `specs/Taking.antt`, and what their run has in `specs/Named.antt`.
//! How the records of several logs take their steps, one after another, is said in `specs/Running.antt`. What the laws say
//! of names beside that stands in `specs/Carried.antt`, `specs/Tells.antt` and `specs/Within.antt`, of where calls are in
//! `specs/Placed.antt`, and which records are local (no message) in `specs/Kinds.antt`. `specs/Glue/Overtaking.antt`,
//! `specs/Glue/Channels.antt`, `specs/Glue/Ledgers.antt`, `specs/Glue/RunBuilder.antt` and `specs/Glue/Turns.antt` describe the tables of what a run's deliveries overtake, of
//! what its steps sent, and of what is kept of a vat while its records take their steps; they serve the code's contracts alone.
//! `proofs/PipelinedCall.antt`, `proofs/TailCall.antt` and `proofs/UnderWay.antt` are examples. What holds of runs and their logs is promised by
//! the functions of `src/laws.rt`, which do nothing.
#![tactic(auto)]

mod first_overtaking;
mod latest;
mod laws;
mod overtaking;
mod records;
mod steps;

pub use first_overtaking::order_fault;
pub use laws::{
    calls_are_settled_once, calls_are_where_logs_have_them, calls_go_where_they_lead,
    ends_of_findings_agree, findings_have_one_run, first_editions_lead, good_findings_have_a_run,
    messages_are_read_as_sent, names_only_grow, no_findings_have_the_empty_run,
    numbers_have_one_name, orders_give_one_fault, orders_give_the_same_steps, orders_take_the_logs,
    own_steps_may_come, questions_have_one_call, receipts_bind_what_is_brought,
    returns_follow_answers, turns_are_told, views_meet_in_the_run, what_is_bound_has_a_name,
    what_is_bound_is_had, what_is_named_has_a_name, what_is_used_is_had,
};
pub use steps::run_naming::name_run;
