//! The other end of a message: the record that received what one sent, or that sent what one received.

ghost use Rattle.std.specs.Prelude.{◌≡◌};
ghost use Rattle.picture.specs.Places.{mate_from, mate_of, vat_at_other_end, other_end_of};
ghost use Rattle.picture.specs.Rows.{mate_at, receipt_of_frame};

use crate::passing::frames::{frame_at, frames_before};
use crate::record_place::Place;
use crate::vat_logs::{body_at, log_of};
use case_book::{Case, Link};
use vat_log::{Body, VatLog};

/// The vat at the other end of a link.
fn other_end_of(link: &Link, vat: u32) -> Option<u32>
    ensures { result ≡ other_end_of vat link.now }
{
    if link.a == vat {
        Some(link.b)
    } else if link.b == vat {
        Some(link.a)
    } else {
        None
    }
}

/// The vat at the other end of a connection.
pub fn other_end(links: &[Link], connection: u32, vat: u32) -> Option<u32>
    ensures { result ≡ vat_at_other_end links.now connection vat }
{
    for link in links {
        if link.connection == connection {
            return other_end_of(link, vat);
        }
    }
    None
}

/// The other end of the message of a record of this log that sends, or receives, a frame on a connection.
fn mate_from(case: &Case, own: &VatLog, number: usize, sent: bool, connection: u32) -> Option<Place>
    ensures { result ≡ mate_from case.now sent connection number own.now }
{
    let vat = other_end(case.links(), connection, own.vat())?;
    let other = log_of(case.logs(), vat)?;
    let frame = frames_before(own, number, sent, connection);
    frame_at(other, frame, !sent, connection)
}

/// The record at the other end of the message of this one, if there is one: of the n-th frame that a vat sent on a
/// connection it is the n-th that the other end received, and the other way round.
pub fn mate_of(case: &Case, place: Place, body: &Body) -> Option<Place>
    ensures { result ≡ mate_of case.now place body.now }
{
    let (sent, connection) = body.passage()?;
    let own = log_of(case.logs(), place.vat)?;
    mate_from(case, own, place.number, sent, connection)
}

/// The other end of the message of the record of this place.
pub fn mate_at(case: &Case, place: Place) -> Option<Place>
    ensures { result ≡ mate_at case.now place }
{
    mate_of(case, place, body_at(case.logs(), place)?)
}

/// The record by which a vat received the message of this number on a connection.
pub fn receipt(case: &Case, connection: u32, vat: u32, message: usize) -> Option<Place>
    ensures { result ≡ receipt_of_frame case.now.logs connection vat message }
{
    frame_at(log_of(case.logs(), vat)?, message, false, connection)
}
