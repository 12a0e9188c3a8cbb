//! The text and the exit status of what an audit found.

ghost use Rattle.std.specs.Prelude.{◌≡◌};
ghost use Rattle.std.specs.Fmt.{WritesOnOk};
ghost use Rattle.vat_rules.specs.Slim.{outcome_in};
ghost use Rattle.report_lines.specs.Lines.{broken_text, code_of, outcome_status, log_outcome_text, outside_text, word_of};

use std::fmt::{self, Formatter};
use vat_rules::{Rule, SlimOutcome, Why};

/// The code of a rule.
pub fn code_of(rule: Rule) -> &'static str
    ensures { result.now ≡ code_of rule }
{
    match rule {
        Rule::Closed => "CLOSED",
        Rule::Ref => "REF",
        Rule::Vow => "VOW",
        Rule::Here => "HERE",
        Rule::QNew => "QNEW",
        Rule::QUse => "QUSE",
        Rule::XUse => "XUSE",
        Rule::Goal => "GOAL",
        Rule::Answer => "ANSWER",
        Rule::Desc => "DESC",
        Rule::Count => "COUNT",
        Rule::Result => "RESULT",
        Rule::Resolve => "RESOLVE",
        Rule::RecvRef => "RECVREF",
        Rule::Emb => "EMB",
    }
}

/// The word for why a record isn't judged.
pub fn word_of(why: Why) -> &'static str
    ensures { result.now ≡ word_of why }
{
    match why {
        Why::Level => "Level",
        Why::Unimplemented => "Unimplemented",
        Why::LaterField => "LaterField",
        Why::Unread => "Unread",
    }
}

/// Writes that a record of a vat breaks what has this code.
pub fn put_broken<W: fmt::Write>(f: &mut Formatter<W>, vat: u32, at: u64, code: &str) -> fmt::Result
    ensures { WritesOnOk W.write_str_gives f.old result (broken_text vat at code.now) f.new }
{
    write!(f, "no vat {vat} record {at} rule {code}")
}

/// Writes that a record of a vat isn't judged, and why.
pub fn put_outside<W: fmt::Write>(f: &mut Formatter<W>, vat: u32, at: u64, why: Why) -> fmt::Result
    ensures { WritesOnOk W.write_str_gives f.old result (outside_text vat at why) f.new }
{
    let word = word_of(why);
    write!(f, "outside vat {vat} record {at} {word}")
}

/// Writes what the audit of a vat's log found, of which it has this many records.
pub fn put_outcome<W: fmt::Write>(
    f: &mut Formatter<W>,
    vat: u32,
    records: u64,
    outcome: &SlimOutcome,
) -> fmt::Result
    ensures { WritesOnOk W.write_str_gives f.old result
        (log_outcome_text vat records (outcome_in outcome.now)) f.new }
{
    match outcome {
        SlimOutcome::Good(story) => {
            let delivered = story.delivered();
            write!(f, "good vat {vat} records {records} delivered {delivered}")
        }
        SlimOutcome::Broken { at, rule } => put_broken(f, vat, *at, code_of(*rule)),
        SlimOutcome::Outside { at, why } => put_outside(f, vat, *at, *why),
    }
}

/// The exit status for what an audit found.
pub fn outcome_status(outcome: &SlimOutcome) -> u8
    ensures { result ≡ outcome_status (outcome_in outcome.now) }
{
    match outcome {
        SlimOutcome::Good(_) => 0,
        SlimOutcome::Broken { .. } => 1,
        SlimOutcome::Outside { .. } => 2,
    }
}
