//! What led to a record that breaks a rule of its log.

mod call_notes;
mod connection_notes;
mod desc_notes;
mod embargo_notes;
mod goal_notes;
mod number_changes;
mod promise_notes;
mod reference_notes;
mod result_notes;
pub(crate) mod rule_cause;
mod view_turns;
