//! The frames of one connection in a log.

ghost use Rattle.std.specs.Prelude.{◌≡◌, ◌+◌, ◌≤◌, length, option_and_then, slice_get};
ghost use Rattle.std.specs.Option.{option_copied, option_map};
ghost use Rattle.link_check.specs.Prefix.{frames_sent, frames_received};
ghost use Rattle.vat_log.specs.Passages.{frame_sent, frame_received};
ghost use Rattle.link_check.specs.Glue.{IsNext, first_fault};

use bytes::Bytes;
use vat_log::VatLog;

/// The frame that the record of this number sends on the connection.
fn sent_at(log: &VatLog, connection: u32, index: usize) -> Option<&Bytes>
    ensures { option_copied result
        ≡ option_and_then (frame_sent connection) (slice_get log.now.records index) }
{
    log.get(index)?.body().frame_sent(connection)
}

/// The frame that the record of this number receives on the connection.
fn received_at(log: &VatLog, connection: u32, index: usize) -> Option<&Bytes>
    ensures { option_copied result
        ≡ option_and_then (frame_received connection) (slice_get log.now.records index) }
{
    log.get(index)?.body().frame_received(connection)
}

/// How many frames a vat sent on the connection.
pub fn count_sent(log: &VatLog, connection: u32) -> u64
    ensures count { result ≡ length (frames_sent connection log.now) }
    ensures fits { result + length (frames_received connection log.now) ≤ 4294967295 }
{
    let mut count = 0;
    for index in 0..log.len() {
        if sent_at(log, connection, index).is_some() {
            count += 1;
        }
    }
    count
}

/// How many frames a vat received on the connection.
pub fn count_received(log: &VatLog, connection: u32) -> u64
    ensures count { result ≡ length (frames_received connection log.now) }
{
    let mut count = 0;
    for index in 0..log.len() {
        if received_at(log, connection, index).is_some() {
            count += 1;
        }
    }
    count
}

/// The next frame that a vat sent on the connection, in the records from this number on, and the number after its record.
fn next_sent(log: &VatLog, connection: u32, from: usize) -> Option<(usize, &Bytes)>
    ensures { IsNext (frame_sent connection) log.now.records from
        (option_map (λ p. (p.0, p.1.now)) result) }
{
    for index in from..log.len() {
        if let Some(frame) = sent_at(log, connection, index) {
            return Some((index + 1, frame));
        }
    }
    None
}

/// The next frame that a vat received on the connection, in the same way.
fn next_received(log: &VatLog, connection: u32, from: usize) -> Option<(usize, &Bytes)>
    ensures { IsNext (frame_received connection) log.now.records from
        (option_map (λ p. (p.0, p.1.now)) result) }
{
    for index in from..log.len() {
        if let Some(frame) = received_at(log, connection, index) {
            return Some((index + 1, frame));
        }
    }
    None
}

/// The least message that the receiver got and that isn't the one of this number that the sender sent, counted from 0.
pub fn find_fault(receiver: &VatLog, sender: &VatLog, connection: u32) -> Option<u64>
    ensures { result ≡ first_fault (frames_received connection receiver.now)
        (frames_sent connection sender.now) }
{
    let mut message = 0;
    let mut begin = 0;
    let mut other_begin = 0;
    while let Some((after, frame)) = next_received(receiver, connection, begin) {
        let Some((other_after, other)) = next_sent(sender, connection, other_begin) else {
            return Some(message);
        };
        if frame != other {
            return Some(message);
        }
        begin = after;
        other_begin = other_after;
        message += 1;
    }
    None
}
