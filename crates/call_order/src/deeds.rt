//! What a record does to the calls of its vat.

ghost use Rattle.std.specs.Prelude.{◌≡◌};
ghost use Rattle.call_order.specs.Glue.Deeds.{deed_of};

use vat_log::Body;

/// What a record does to the calls of its vat.
#[derive(Clone, Copy, PartialEq, Eq)]
pub(crate) enum Deed {
    /// It makes a call through a reference.
    Make {
        /// The vat's number of the call.
        call: u64,
        /// The vat's reference.
        reference: u64,
    },
    /// It delivers a call.
    Deliver {
        /// The vat's number of the call.
        call: u64,
    },
    /// It sends a call on, or a Bootstrap.
    Send {
        /// The connection.
        connection: u32,
        /// The vat's number of the call.
        call: u64,
    },
    /// It receives a call, or a Bootstrap.
    Receive {
        /// The connection.
        connection: u32,
        /// The vat's number of the call.
        call: u64,
    },
    /// It answers or faults a call.
    End {
        /// The vat's number of the call.
        call: u64,
    },
    /// It does nothing to calls.
    Other,
}

/// What a record does. A message in which no call goes has the number 0 beside it.
pub(crate) fn deed_of(body: &Body) -> Deed
    ensures { result ≡ deed_of body.now }
{
    match body {
        &Body::Make {
            call,
            reference,
            ..
        } => Deed::Make { call, reference },
        &Body::Deliver { call, .. } => Deed::Deliver { call },
        &Body::Send {
            connection,
            call,
            ..
        } if call != 0 => Deed::Send { connection, call },
        &Body::Receive {
            connection,
            call,
            ..
        } if call != 0 => Deed::Receive { connection, call },
        &Body::Answer { call, .. } | &Body::AnswerBy { call, .. } | &Body::Fault { call } => {
            Deed::End { call }
        }
        _ => Deed::Other,
    }
}
