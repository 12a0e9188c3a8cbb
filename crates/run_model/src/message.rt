//! Messages.

ghost use Rattle.std.specs.Prelude.{◌≡◌, IfOk};

use crate::cap::Cap;
use crate::caps::Caps;
use crate::name::Name;
use crate::plain::Plain;
use crate::results::Results;
use std::alloc::AllocError;

/// What a message says of calls and capabilities, without the numbers of its connection (rpc.capnp, `Message`).
#[derive(Debug)]
pub enum Message {
    /// A Bootstrap. It is a call of the vat that sends it, which is never at a vat.
    Boot(Name),
    /// A Call, sent on towards the target.
    Call {
        /// Which call it is.
        call: Name,
        /// Where it goes.
        target: Cap,
        /// The interface that is called, by its 64-bit id.
        interface: u64,
        /// The method of the interface that is called, counted from 0.
        method: u16,
        /// The capabilities in its parameters.
        caps: Caps,
    },
    /// A Return with results that wasn't late when it was sent.
    Return {
        /// The call that it answers.
        call: Name,
        /// The capabilities that stand at paths of its results.
        results: Results,
        /// The capabilities in its results.
        caps: Caps,
    },
    /// A Return with results, or with those of another question, that was late when it was sent: a Finish that gives its
    /// results back had come before it.
    Late(Name),
    /// A Return without results: an exception, or canceled.
    Failed(Name),
    /// A Return that takes its results from another question (rpc.capnp, `Return.takeFromOtherQuestion`) and wasn't late when
    /// it was sent: the results of the first call are those of the second. Where both are one call, it is passed back: it was
    /// sent on over the connection by which it came.
    Taken(Name, Name),
    /// A Return, late or not, which says that the results were sent elsewhere (rpc.capnp, `Return.resultsSentElsewhere`).
    Elsewhere(Name),
    /// A Resolve: the first capability, a promise, turned out to be the second, or leads there.
    Resolve(Cap, Cap),
    /// A Resolve with an exception, or with no capability: the promise is broken.
    Broken(Cap),
    /// Any other message of level 1.
    Plain(Plain),
}

impl Drop for Message {
    fn drop(self) {
        match self {
            Self::Boot(_) => {}
            Self::Call {
                call: _,
                target: _,
                interface: _,
                method: _,
                caps: _,
            } => {}
            Self::Return {
                call: _,
                results: _,
                caps: _,
            } => {}
            Self::Late(_) => {}
            Self::Failed(_) => {}
            Self::Taken(_, _) => {}
            Self::Elsewhere(_) => {}
            Self::Resolve(_, _) => {}
            Self::Broken(_) => {}
            Self::Plain(_) => {}
        }
    }
}

impl Message {
    /// A second message that is the same. The only error is that memory ran out.
    pub fn copy(&self) -> Result<Message, AllocError>
        ensures { IfOk result (λ copied. copied ≡ self.now) }
    {
        match self {
            Message::Boot(call) => Ok(Message::Boot(*call)),
            Message::Call {
                call,
                target,
                interface,
                method,
                caps,
            } => Ok(Message::Call {
                call: *call,
                target: target.copy()?,
                interface: *interface,
                method: *method,
                caps: caps.copy()?,
            }),
            Message::Return {
                call,
                results,
                caps,
            } => Ok(Message::Return {
                call: *call,
                results: results.copy()?,
                caps: caps.copy()?,
            }),
            Message::Late(call) => Ok(Message::Late(*call)),
            Message::Failed(call) => Ok(Message::Failed(*call)),
            Message::Taken(call, by) => Ok(Message::Taken(*call, *by)),
            Message::Elsewhere(call) => Ok(Message::Elsewhere(*call)),
            Message::Resolve(promise, cap) => Ok(Message::Resolve(promise.copy()?, cap.copy()?)),
            Message::Broken(promise) => Ok(Message::Broken(promise.copy()?)),
            Message::Plain(plain) => Ok(Message::Plain(*plain)),
        }
    }
}
