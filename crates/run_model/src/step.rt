//! Steps.

ghost use Rattle.std.specs.Prelude.{◌≡◌};
ghost use Rattle.run_model.specs.Steps.{vat_of};

use crate::cap::Cap;
use crate::caps::Caps;
use crate::message::Message;
use crate::name::Name;
use crate::results::Results;

/// What one vat does, which is one record of its log. Every step names its vat by the vat number.
#[derive(Debug)]
pub enum Step {
    /// The vat hosts an object of its own.
    Host {
        /// Whose step it is.
        vat: u32,
        /// The vat's own number of the object.
        object: u64,
    },
    /// The vat promises a capability.
    Vow {
        /// Whose step it is.
        vat: u32,
        /// The promise, by the reference under which it is vowed.
        promise: u64,
    },
    /// The vat keeps its promise, which turns to this capability.
    Fulfil {
        /// Whose step it is.
        vat: u32,
        /// The promise, by the reference under which it was vowed.
        promise: u64,
        /// What it turned out to be.
        to: Cap,
    },
    /// The vat's promise is broken.
    Break {
        /// Whose step it is.
        vat: u32,
        /// The promise, by the reference under which it was vowed.
        promise: u64,
    },
    /// The vat makes a call.
    Make {
        /// Whose step it is.
        vat: u32,
        /// The vat's own number of the call.
        number: u64,
        /// Where the call is to go.
        cap: Cap,
        /// The reference through which the call is made. Calls through one reference are to keep their order.
        reference: u64,
        /// The interface that is called, by its 64-bit id.
        interface: u64,
        /// The method of the interface that is called, counted from 0.
        method: u16,
    },
    /// The vat names the result of a call, which may be still to come.
    Name {
        /// Whose step it is.
        vat: u32,
        /// The field.
        cap: Cap,
    },
    /// The vat gives a call to its own object.
    Deliver {
        /// Whose step it is.
        vat: u32,
        /// The call.
        call: Name,
        /// The vat's own number of the object.
        object: u64,
    },
    /// A call has these results.
    Answer {
        /// Whose step it is.
        vat: u32,
        /// The call.
        call: Name,
        /// The capabilities in its results.
        results: Results,
    },
    /// A call is answered by another: its results are the other's, which may be still to come.
    AnswerBy {
        /// Whose step it is.
        vat: u32,
        /// The call.
        call: Name,
        /// The call whose results are its results.
        by: Name,
    },
    /// A call ends without results.
    Fault {
        /// Whose step it is.
        vat: u32,
        /// The call.
        call: Name,
    },
    /// The vat sends a message.
    Send {
        /// Whose step it is.
        vat: u32,
        /// The connection, by its number in the logs of both ends.
        connection: u32,
        /// What is sent.
        message: Message,
    },
    /// The vat receives a message.
    Receive {
        /// Whose step it is.
        vat: u32,
        /// The connection, by its number in the logs of both ends.
        connection: u32,
        /// What is received.
        message: Message,
        /// The capabilities that the vat has by it from then on, in the order of their places.
        bound: Caps,
    },
}

impl Drop for Step {
    fn drop(self) {
        match self {
            Self::Host { vat: _, object: _ } => {}
            Self::Vow { vat: _, promise: _ } => {}
            Self::Fulfil {
                vat: _,
                promise: _,
                to: _,
            } => {}
            Self::Break { vat: _, promise: _ } => {}
            Self::Make {
                vat: _,
                number: _,
                cap: _,
                reference: _,
                interface: _,
                method: _,
            } => {}
            Self::Name { vat: _, cap: _ } => {}
            Self::Deliver {
                vat: _,
                call: _,
                object: _,
            } => {}
            Self::Answer {
                vat: _,
                call: _,
                results: _,
            } => {}
            Self::AnswerBy {
                vat: _,
                call: _,
                by: _,
            } => {}
            Self::Fault { vat: _, call: _ } => {}
            Self::Send {
                vat: _,
                connection: _,
                message: _,
            } => {}
            Self::Receive {
                vat: _,
                connection: _,
                message: _,
                bound: _,
            } => {}
        }
    }
}

/// Whose step it is, by the vat number.
pub fn vat_of(step: &Step) -> u32
    ensures { result ≡ vat_of step.now }
{
    match step {
        Step::Host { vat, .. }
        | Step::Vow { vat, .. }
        | Step::Fulfil { vat, .. }
        | Step::Break { vat, .. }
        | Step::Make { vat, .. }
        | Step::Name { vat, .. }
        | Step::Deliver { vat, .. }
        | Step::Answer { vat, .. }
        | Step::AnswerBy { vat, .. }
        | Step::Fault { vat, .. }
        | Step::Send { vat, .. }
        | Step::Receive { vat, .. } => *vat,
    }
}
