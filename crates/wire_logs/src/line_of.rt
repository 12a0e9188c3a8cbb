//! From the audit's report to the line.

ghost use Rattle.std.specs.Prelude.{◌≡◌, ◌<◌, option_and_then, slice_get, length, take};
ghost use Rattle.std.specs.Arc.{arc_value};
ghost use Rattle.std.specs.Option.{option_copied};
ghost use Rattle.vat_log.specs.Passages.{frame_sent, frame_received};
ghost use Rattle.wire_ends.specs.Made.{AreLogs};
ghost use Rattle.wire_logs.specs.Lines.{IsLine, IsUnexplained, message_by_record, named_in, received_before, sent_before};

use bytes::Bytes;
use case_report::{Report, WireLine};
use vat_log::VatLog;
use wire_cut::End;
use wire_ends::{Blame, MadeLogs};

/// The number of the connection in both logs.
const CONNECTION: u32 = 0;

/// The frame that the record of this number sends.
fn sent_at(log: &VatLog, index: usize) -> Option<&Bytes>
    ensures { option_copied result
        ≡ option_and_then (frame_sent 0) (slice_get log.now.records index) }
{
    log.get(index)?.body().frame_sent(CONNECTION)
}

/// The frame that the record of this number receives.
fn received_at(log: &VatLog, index: usize) -> Option<&Bytes>
    ensures { option_copied result
        ≡ option_and_then (frame_received 0) (slice_get log.now.records index) }
{
    log.get(index)?.body().frame_received(CONNECTION)
}

/// How many records there are before this number.
fn records_before(log: &VatLog, at: usize) -> usize
    ensures { take result log.now.records ≡ take at log.now.records }
{
    if at < log.len() { at } else { log.len() }
}

/// How many frames the records before this number send.
fn count_sent(log: &VatLog, at: usize) -> u64
    ensures { result ≡ sent_before log.now at }
{
    let mut count = 0;
    for index in 0..records_before(log, at) {
        if sent_at(log, index).is_some() {
            count += 1;
        }
    }
    count
}

/// How many frames the records before this number receive.
fn count_received(log: &VatLog, at: usize) -> u64
    ensures { result ≡ received_before log.now at }
{
    let mut count = 0;
    for index in 0..records_before(log, at) {
        if received_at(log, index).is_some() {
            count += 1;
        }
    }
    count
}

/// The message that a record of an end's log names: a frame that is sent or received, or else the one that was received last
/// before it.
fn message_of(log: &VatLog, end: End, at: u64) -> (End, u64)
    ensures { result ≡ message_by_record log.now end at }
{
    let at = at as usize;
    let sent = count_sent(log, at);
    let received = count_received(log, at);
    if sent_at(log, at).is_some() {
        return (end, sent);
    }
    if received_at(log, at).is_some() {
        return (end.other(), received);
    }
    if received == 0 {
        return (end, sent);
    }
    (end.other(), received - 1)
}

/// The message that a record of a vat's log names.
fn named_by(made: &MadeLogs, vat: u32, at: u64) -> (End, u64)
    ensures { result ≡ named_in (arc_value made.now.log_of_a) (arc_value made.now.log_of_b) vat at }
{
    if vat == made.log_of_a.vat() {
        message_of(&made.log_of_a, End::A, at)
    } else {
        message_of(&made.log_of_b, End::B, at)
    }
}

/// The number of the message of each end that waits; 0 where none does.
fn waits(made: &MadeLogs) -> (u64, u64) {
    let [of_a, of_b] = made.waiting;
    (
        of_a.map_or(0, |waiting| waiting.message),
        of_b.map_or(0, |waiting| waiting.message),
    )
}

/// The message at which the explanation stops: the one at which a log ends, the one that is blamed, or one that waits.
fn unexplained(made: &MadeLogs) -> WireLine
    ensures { IsUnexplained result }
{
    if let Some((end, message)) = made.unlisted {
        return WireLine::Unexplained { end, message };
    }
    let (of_a, of_b) = waits(made);
    let is_of_b = match made.blame {
        Some(Blame::One(End::B)) => true,
        Some(Blame::One(End::A) | Blame::Circle) => false,
        None => made.waiting[0].is_none(),
    };
    if is_of_b {
        WireLine::Unexplained {
            end: End::B,
            message: of_b,
        }
    } else {
        WireLine::Unexplained {
            end: End::A,
            message: of_a,
        }
    }
}

/// The yes to frames of both files.
fn yes(a: &[Bytes], b: &[Bytes], delivered: u64) -> WireLine
    ensures { result ≡ WireLine.Yes (length a.now) (length b.now) delivered }
{
    WireLine::Yes {
        frames_of_a: a.len() as u64,
        frames_of_b: b.len() as u64,
        delivered,
    }
}

/// The line, by the audit's report of the two logs. It is a yes only where all frames of both files are in the logs.
pub(crate) fn line_of(made: &MadeLogs, report: &Report, a: &[Bytes], b: &[Bytes]) -> WireLine
    requires { AreLogs a.now b.now made.now }
    ensures { IsLine a.now b.now (arc_value made.now.log_of_a) (arc_value made.now.log_of_b) report.now
        result }
{
    match report {
        Report::Vat { vat, at, rule } => {
            let (end, message) = named_by(made, *vat, *at);
            WireLine::No {
                end,
                message,
                rule: *rule,
            }
        }
        Report::OutsideVat { vat, at, why } => {
            let (end, message) = named_by(made, *vat, *at);
            WireLine::Outside {
                end,
                message,
                why: *why,
            }
        }
        Report::NoOrder => {
            let (of_a, of_b) = waits(made);
            WireLine::NoOrder { of_a, of_b }
        }
        Report::Yes { delivered, .. } if made.is_whole => yes(a, b, *delivered),
        Report::Yes { .. } | Report::Link { .. } | Report::OrderStep(_) => unexplained(made),
    }
}
