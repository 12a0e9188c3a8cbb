//! Calls that overtake others where an embargo wasn't asked for, or wasn't waited for.

use crate::cases::order_cause::Placed;
use past_records::{NoteText, decoded};
use record_notes::Logs;
use rpc_view::{Loopback, RpcMessage};
use run_model::{Message, Name, Step};
use std::alloc::{AllocError, Global};
use vat_log::VatLog;
use vat_view::DecodedRecord;

/// Where the ways of two calls part: the vat, the connection over which it sends the one, the record that does so, and its
/// later record by which the other goes another way.
#[derive(Clone, Copy)]
struct Parting {
    vat: u32,
    connection: u32,
    sent: usize,
    left: usize,
}

/// The connection over which a step sends this call, if it does.
fn sends(step: &Step, sought: Name) -> Option<u32> {
    match step {
        Step::Send {
            connection,
            message: Message::Call { call, .. },
            ..
        } if *call == sought => Some(*connection),
        _ => None,
    }
}

/// Whether a step delivers this call, or sends it over another connection.
fn leaves(step: &Step, sought: Name, connection: u32) -> bool {
    match step {
        Step::Deliver { call, .. } => *call == sought,
        _ => sends(step, sought).is_some_and(|other| other != connection),
    }
}

/// Where the call that overtakes parts from the one that is overtaken, if this step sends that one.
fn parting_at(
    steps: &[Placed<'_>],
    placed: &Placed<'_>,
    overtaken: Name,
    early: Name,
) -> Option<Parting> {
    let (vat, sent) = (placed.vat, placed.at);
    let connection = sends(placed.step, overtaken)?;
    let mut leaving = steps.iter();
    let later = leaving.find(|other| other.vat == vat && leaves(other.step, early, connection))?;
    let left = later.at;
    (left > sent).then_some(Parting {
        vat,
        connection,
        sent,
        left,
    })
}

/// What a record says of embargoes on this connection: a senderLoopback that is sent, or an echo that is received.
fn loopback_in(event: &DecodedRecord, sought: u32) -> Option<Loopback> {
    match event {
        DecodedRecord::Wire {
            sent,
            connection,
            message: RpcMessage::Disembargo { loopback, .. },
            ..
        } if *connection == sought && *sent == (*loopback == Loopback::Sender) => {
            Some(*loopback)
        }
        _ => None,
    }
}

/// Whether an embargo was asked for between both records, and the senderLoopback that still waits for its echo then.
fn asked_between(
    alloc: Global,
    log: &VatLog,
    parting: Parting,
) -> Result<(bool, Option<usize>), AllocError> {
    let mut asked = (false, None);
    for at in parting.sent..parting.left {
        let event = decoded(alloc, log, at)?;
        match event.and_then(|event| loopback_in(&event, parting.connection)) {
            Some(Loopback::Sender) => asked = (true, Some(at)),
            Some(Loopback::Receiver) => asked.1 = None,
            None => {}
        }
    }
    Ok(asked)
}

/// Appends the note of the embargo that wasn't asked for, or wasn't waited for.
fn put_embargo(text: &mut NoteText, parting: Parting, asked: (bool, Option<usize>)) {
    let (vat, connection) = (u64::from(parting.vat), u64::from(parting.connection));
    let (sent, left) = (parting.sent as u64, parting.left as u64);
    match asked {
        (false, _) => text.note(
            "vat # sent no senderLoopback on connection # between its records # and #: the embargo wasn't asked for",
            &[vat, connection, sent, left],
        ),
        (true, Some(at)) => text.note(
            "record # of vat # didn't wait for the echo of the senderLoopback that its record # sent",
            &[left, vat, at as u64],
        ),
        (true, None) => {}
    }
}

/// Appends the note of the embargo that should have kept one call behind the other, where their ways part.
pub(crate) fn put_embargo_cause(
    text: &mut NoteText,
    logs: &Logs<'_>,
    steps: &[Placed<'_>],
    overtaken: Name,
    early: Name,
) {
    let mut steps_of_both = steps.iter();
    if let Some(parting) = steps_of_both.find_map(|one| parting_at(steps, one, overtaken, early))
        && let Some(log) = text.found(logs.of_vat(text.alloc(), parting.vat))
        && let Some(asked) = text.granted(asked_between(text.alloc(), &log, parting))
    {
        put_embargo(text, parting, asked);
    }
}
