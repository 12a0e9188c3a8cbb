//! Records with their messages read.

use cap_frame::Path;
use rpc_view::RpcMessage;
use vat_log::{References, ResultReferences};

/// A record that is judged, with its message read (docs/FORMATS.md). References and calls are the vat's own numbers.
#[derive(Debug)]
pub enum DecodedRecord {
    /// HOST: the vat hosts an object of its own under a reference.
    Host {
        /// The new reference, which isn't 0.
        reference: u64,
        /// The vat's own number of the object, which may be 0.
        object: u64,
    },
    /// VOW: the vat promises a capability of its own under a reference.
    Vow {
        /// The new reference, which isn't 0.
        reference: u64,
    },
    /// FULFIL: the vat's promise under the first reference is kept: it is what the second one stands for.
    Fulfil {
        /// The promise, which isn't 0.
        reference: u64,
        /// What it turned out to be, which isn't 0.
        to: u64,
    },
    /// BREAK: the vat's promise is broken.
    Break {
        /// The promise, which isn't 0.
        reference: u64,
    },
    /// MAKE: the vat makes a call through a reference.
    Make {
        /// The new call, which isn't 0.
        call: u64,
        /// Where it goes, which isn't 0.
        reference: u64,
        /// The interface that is called, by its 64-bit id.
        interface: u64,
        /// The method of the interface that is called, counted from 0.
        method: u16,
    },
    /// FIELD: the vat names the capability at a path in a call's results, which may be still to come.
    Field {
        /// The new reference, which isn't 0.
        reference: u64,
        /// The call, which isn't 0.
        call: u64,
        /// The pointer fields from the root of the results on, each counted from 0.
        path: Path,
    },
    /// DELIVER: the vat gives a call to its own object.
    Deliver {
        /// The call, which isn't 0.
        call: u64,
        /// The vat's own number of the object.
        object: u64,
    },
    /// ANSWER: the results of a call.
    Answer {
        /// The call, which isn't 0.
        call: u64,
        /// The capabilities in its results.
        results: ResultReferences,
    },
    /// ANSWERBY: the results of a call are those of another, to which its vat handed it on.
    AnswerBy {
        /// The call, which isn't 0.
        call: u64,
        /// The call whose results are its results, which isn't 0.
        by: u64,
    },
    /// FAULT: a call ends with no results.
    Fault {
        /// The call, which isn't 0.
        call: u64,
    },
    /// SEND or RECV: a frame passed on a connection.
    Wire {
        /// Whether the frame went out.
        sent: bool,
        /// The connection's number, the same in the logs of both ends.
        connection: u32,
        /// The call that a Bootstrap or a Call is; 0 where none is noted.
        call: u64,
        /// The references noted beside it, in the order of the descriptors that aren't none: those given away where
        /// the frame went out, and else the new ones for what came in.
        references: References,
        /// What the frame says.
        message: RpcMessage,
    },
}

impl Drop for DecodedRecord {
    fn drop(self) {
        match self {
            Self::Host {
                reference: _,
                object: _,
            } => {}
            Self::Vow { reference: _ } => {}
            Self::Fulfil {
                reference: _,
                to: _,
            } => {}
            Self::Break { reference: _ } => {}
            Self::Make {
                call: _,
                reference: _,
                interface: _,
                method: _,
            } => {}
            Self::Field {
                reference: _,
                call: _,
                path: _,
            } => {}
            Self::Deliver { call: _, object: _ } => {}
            Self::Answer {
                call: _,
                results: _,
            } => {}
            Self::AnswerBy { call: _, by: _ } => {}
            Self::Fault { call: _ } => {}
            Self::Wire {
                sent: _,
                connection: _,
                call: _,
                references: _,
                message: _,
            } => {}
        }
    }
}
