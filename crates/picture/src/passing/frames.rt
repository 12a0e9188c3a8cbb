//! The frames that pass on a connection.

ghost use Rattle.std.specs.Prelude.{◌≡◌, slice_get};
ghost use Rattle.picture.specs.Places.{place_of_frame, frames_before, passes_in, place_of_nth};
ghost use Rattle.vat_log.specs.Passages.{passes};

use crate::record_place::Place;
use crate::vat_logs::body_in;
use vat_log::VatLog;

/// Whether the record of this number of a log sends, or receives, a frame on a connection.
pub fn is_passage(log: &VatLog, number: usize, sent: bool, connection: u32) -> bool
    ensures { result ≡ passes_in (passes sent connection) (slice_get log.now.records number) }
{
    matches!(body_in(log, number), Some(body) if body.passes(sent, connection))
}

/// How many records of a log before this one send, or receive, a frame on a connection.
pub fn frames_before(log: &VatLog, number: usize, sent: bool, connection: u32) -> usize
    ensures { result ≡ frames_before sent connection log.now.records number }
{
    let mut frames = 0;
    for at in 0..number {
        if is_passage(log, at, sent, connection) {
            frames += 1;
        }
    }
    frames
}

/// The number of the record of a log by which the frame of this number is sent, or received, on a connection.
fn frame_number(log: &VatLog, frame: usize, sent: bool, connection: u32) -> Option<usize>
    ensures { result ≡ place_of_nth (passes sent connection) frame log.now.records }
{
    let mut left = frame;
    for at in 0..log.len() {
        if is_passage(log, at, sent, connection) {
            if left == 0 {
                return Some(at);
            }
            left -= 1;
        }
    }
    None
}

/// The record of a log by which the frame of this number is sent, or received, on a connection.
pub fn frame_at(log: &VatLog, frame: usize, sent: bool, connection: u32) -> Option<Place>
    ensures { result ≡ place_of_frame sent connection frame log.now }
{
    let number = frame_number(log, frame, sent, connection)?;
    let vat = log.vat();
    Some(Place { vat, number })
}
