//! What can be asked of connections, of imports that came in over them, and of the loopbacks on them.

ghost use Rattle.std.specs.Prelude.{◌≡◌, ◌<◌, Decides, is_some};
ghost use Rattle.decoded_records.specs.declared.view.View.{View};
ghost use Rattle.std.specs.Option.{option_copied};
ghost use Rattle.vat_view.specs.Arrivals.{came_hosted};
ghost use Rattle.vat_view.specs.Connections.{is_aborted, is_aborted_here};
ghost use Rattle.decoded_records.specs.Loopbacks.{loopback_of, embargoed_view, IsHeldUp};

use crate::state::VatState;
use decoded_records::{TableKey, View};

/// What can be asked of connections.
impl VatState {
    /// Whether a connection was aborted, from either end (rpc.capnp, `Message.abort`).
    pub fn is_aborted(&self, connection: u32) -> bool
        ensures { result ≡ is_aborted connection self.now }
    {
        self.tables.connections.is_aborted(connection)
    }

    /// Whether this vat sent an abort on a connection. One that answers a received abort is in order in a log of the later
    /// edition, and a second one never is (rpc.capnp, `Message.abort`).
    pub fn is_aborted_here(&self, connection: u32) -> bool
        ensures { result ≡ is_aborted_here connection self.now }
    {
        self.tables.connections.is_aborted_here(connection)
    }
}

/// What can be asked of imports.
impl VatState {
    /// Whether the import came in as senderHosted that stands at this place of the record of this number, both counted
    /// from 0, as its view has them (rpc.capnp, `CapDescriptor.senderHosted`).
    pub fn came_hosted(&self, number: usize, place: usize) -> bool
        ensures { result ≡ came_hosted self.now number place }
    {
        self.tables.arrivals.is_hosted(number, place)
    }
}

/// What can be asked of loopbacks (rpc.capnp, the comments of Disembargo).
impl VatState {
    /// Whether a senderLoopback went under a number and its echo hasn't passed since: of a number of ours it is
    /// outstanding, of the peer's it is pending.
    pub fn awaits_echo(&self, number: TableKey) -> bool
        ensures { result ≡ is_some (loopback_of number self.now) }
    {
        self.tables.waits.loopbacks.has(number)
    }

    /// What the target of the senderLoopback that waits for its echo under a number stood for then, if one waits and
    /// its target stood for something.
    pub fn embargoed_view(&self, number: TableKey) -> Option<&View>
        ensures { option_copied result ≡ embargoed_view number self.now }
    {
        self.tables.waits.loopbacks.embargoed_view(number)
    }

    /// Whether the echo is held up of the senderLoopback that waits under a number: whether a call that was received on
    /// its connection before it, and whose goal is what its target stood for then, is still at the vat. It looks only at
    /// calls of the connection that came before and whose goal differs from that target in a long path at most; the
    /// first with that goal decides. It takes no memory.
    pub fn is_held_up(&self, number: TableKey) -> bool
        ensures { Decides result (IsHeldUp number self.now) }
    {
        match self.tables.waits.loopbacks.of(number) {
            Some(looped) => {
                let inbox = &self.tables.waits.inbox;
                inbox.holds_up(&self.tables.calls, number.connection, looped)
            }
            None => false,
        }
    }
}
