//! The cause of a record that breaks a rule of its log.

use crate::rules::call_notes::{put_absent, put_answered};
use crate::rules::connection_notes::put_closed;
use crate::rules::desc_notes::{put_misdescribed, put_unpaired};
use crate::rules::embargo_notes::put_embargo;
use crate::rules::goal_notes::put_astray;
use crate::rules::promise_notes::{put_misresolved, put_unvowed};
use crate::rules::reference_notes::put_unbound;
use crate::rules::result_notes::put_misreturned;
use past_records::{NoteText, Past, put_gone, put_miscounted, put_misused, put_reopened};
use std::alloc::Global;
use vat_log::VatLog;
use vat_rules::Rule;

/// Notes of the records that lead to a broken rule, where they are found. The log is walked up to the record; for a number
/// that a Return or a Finish gives back too often, twice.
pub fn put_rule_cause(text: &mut NoteText, log: &VatLog, at: usize, rule: Rule) {
    if let Some(past) = text.found(Past::of(text.alloc(), log, at)) {
        put_past_cause(&past, text, rule);
    }
}

/// The same of a record whose past is there: as far as its records are kept, and by what the tables know.
pub fn put_past_cause(past: &Past<'_>, text: &mut NoteText, rule: Rule) {
    match rule {
        Rule::Closed => put_closed(past, text),
        Rule::Ref => put_unbound(past, text),
        Rule::Vow => put_unvowed(past, text),
        Rule::Here => put_absent(past, text),
        Rule::QNew => put_reopened(past, text),
        Rule::QUse => put_misused(past, text),
        Rule::XUse => put_gone(past, text),
        Rule::Goal => put_astray(past, text),
        Rule::Answer => put_answered(past, text),
        Rule::Desc => put_misdescribed(past, text),
        Rule::Count => put_miscounted(past, text),
        Rule::Result => put_misreturned(past, text),
        Rule::Resolve => put_misresolved(past, text),
        Rule::RecvRef => {
            put_unpaired(past, text);
        }
        Rule::Emb => put_embargo(past, text),
    }
}
