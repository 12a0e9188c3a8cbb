//! The rules on a connection as a whole: when it has ended, and when an embargo may be asked for and lifted.

ghost use Rattle.std.specs.Prelude.{◌≡◌, true, false, not, is_some, Decides, IsTrue, IsSomeAnd};
ghost use Rattle.std.specs.Option.{option_copied};
ghost use Rattle.decoded_records.specs.Past.{id};
ghost use Rattle.decoded_records.specs.Views.{view_of_target};
ghost use Rattle.decoded_records.specs.Loopbacks.{loopback_of, embargoed_view, IsHeldUp};
ghost use Rattle.vat_view.specs.Connections.{LeadsOver};
ghost use Rattle.vat_rules.specs.Ways.{LeadsTo};
ghost use Rattle.vat_rules.specs.OfConnections.{is_closed, IsOpen, LeadsAway, KeepsEmbargo};

use crate::rules::leads::leads_to;
use rpc_view::{Edition, Loopback, RpcMessage};
use vat_view::{DecodedRecord, TableKey, VatState, View};

/// Whether a connection takes nothing more from this vat: it was aborted, by the first edition from either end, by the
/// later one by this vat.
fn is_closed(edition: Edition, state: &VatState, connection: u32) -> bool
    ensures { result ≡ is_closed edition connection state.now }
{
    match edition {
        Edition::First => state.is_aborted(connection),
        Edition::Later => state.is_aborted_here(connection),
    }
}

/// Whether a record sends nothing on a connection that is closed.
pub(crate) fn is_open(edition: Edition, state: &VatState, event: &DecodedRecord) -> bool
    ensures { Decides result (IsOpen edition state.now event.now) }
{
    match event {
        DecodedRecord::Wire {
            sent: true,
            connection,
            ..
        } => !is_closed(edition, state, *connection),
        _ => true,
    }
}

/// A loopback number of this vat's.
fn ours(connection: u32, number: u32) -> TableKey
    ensures { result ≡ id connection true number }
{
    TableKey {
        connection,
        ours: true,
        number,
    }
}

/// A loopback number of the peer's.
fn theirs(connection: u32, number: u32) -> TableKey
    ensures { result ≡ id connection false number }
{
    TableKey {
        connection,
        ours: false,
        number,
    }
}

/// Whether a loopback may be sent over a connection for a view: that leads elsewhere, as the edition has it; or, by the
/// later edition, it came back.
fn leads_away(edition: Edition, state: &VatState, connection: u32, target: &View) -> bool
    ensures { Decides result (LeadsAway edition state.now target.now connection) }
{
    match edition {
        Edition::First => state.leads_elsewhere(target, connection, edition),
        Edition::Later => {
            state.leads_elsewhere(target, connection, edition)
                || state.came_back(target, connection)
        }
    }
}

/// Whether a sent senderLoopback has a number that isn't outstanding, and a target for which it may be sent over its
/// connection.
fn asks_echo(
    edition: Edition,
    state: &VatState,
    connection: u32,
    number: u32,
    target: Option<&View>,
) -> bool
    ensures { Decides result
        (IsTrue (not (is_some (loopback_of (id connection true number) state.now)))
        × IsSomeAnd (option_copied target.entry)
        (λ v. LeadsAway edition state.now v connection)) }
{
    if state.awaits_echo(ours(connection, number)) {
        return false;
    }
    match target {
        Some(target) => leads_away(edition, state, connection, target),
        None => false,
    }
}

/// Whether a received senderLoopback has a number that isn't pending, and a target that leads back over its connection.
fn is_asked_echo(state: &VatState, connection: u32, number: u32, target: Option<&View>) -> bool
    ensures { Decides result
        (IsTrue (not (is_some (loopback_of (id connection false number) state.now)))
        × IsSomeAnd (option_copied target.entry) (λ v. LeadsOver state.now v connection)) }
{
    if state.awaits_echo(theirs(connection, number)) {
        return false;
    }
    match target {
        Some(target) => state.leads_over(target, connection),
        None => false,
    }
}

/// Whether a sent receiverLoopback has a number whose target led on to this one, and no call holds it up.
fn may_echo(state: &VatState, connection: u32, number: u32, target: Option<&View>) -> bool
    ensures { Decides result
        (LeadsTo state.now
        (embargoed_view (id connection false number) state.now) (option_copied target.entry)
        × ¬ IsHeldUp (id connection false number) state.now) }
{
    let loopback = theirs(connection, number);
    leads_to(state, state.embargoed_view(loopback), target) && !state.is_held_up(loopback)
}

/// Whether a Disembargo asks for an echo, or echoes, as it may by an edition.
pub(crate) fn keeps_embargo(
    edition: Edition,
    state: &VatState,
    event: &DecodedRecord,
    target: Option<&View>,
) -> bool
    requires { option_copied target ≡ view_of_target state.now event.now }
    ensures { Decides result (KeepsEmbargo edition state.now event.now) }
{
    let DecodedRecord::Wire {
        sent,
        connection,
        message: RpcMessage::Disembargo {
            number,
            loopback,
            ..
        },
        ..
    } = event
    else {
        return true;
    };
    match (loopback, *sent) {
        (Loopback::Sender, true) => asks_echo(edition, state, *connection, *number, target),
        (Loopback::Sender, false) => is_asked_echo(state, *connection, *number, target),
        (Loopback::Receiver, true) => may_echo(state, *connection, *number, target),
        (Loopback::Receiver, false) => state.awaits_echo(ours(*connection, *number)),
    }
}
