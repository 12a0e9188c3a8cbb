//! Messages, as rpc.capnp lays them out. Numbers of exports, imports, questions and answers are those of the frame.

ghost use Rattle.std.specs.Prelude.{◌≡◌};

use cap_frame::Path;
use cap_reader::Fields;
use std::marker::Model;

/// What a message is meant for: rpc.capnp's `MessageTarget`.
#[derive(Debug, Drop)]
pub enum Target {
    /// A number of the receiver's exports: `importedCap`.
    Imported(u32),
    /// A result of a question that the sender opened, at a path of pointer fields: `promisedAnswer`. Operations that do
    /// nothing are left out of the path.
    Promised(u32, Path),
}

/// An entry of a capability table: rpc.capnp's `CapDescriptor`.
#[derive(Debug, Drop)]
pub enum Descriptor {
    /// No capability: `none`.
    NoCap,
    /// A number of the sender's exports: `senderHosted`.
    SenderHosted(u32),
    /// A number of the sender's exports, which a Resolve will follow: `senderPromise`.
    SenderPromise(u32),
    /// A number of the receiver's exports: `receiverHosted`.
    ReceiverHosted(u32),
    /// A result of a question that the sender opened, at a path of pointer fields: `receiverAnswer`. Operations that do
    /// nothing are left out of the path.
    ReceiverAnswer(u32, Path),
}

/// A capability table: descriptors by place, counted from 0.
#[derive(Debug, Drop)]
pub struct Descriptors {
    items: Vec<Descriptor>,
}

impl Model for Descriptors {
    ghost use Rattle.std.specs.Prelude.{List};
    ghost use Rattle.rpc_view.specs.declared.message.Descriptor.{Descriptor};

    ghost Value = { List Descriptor };

    ghost view = { λ table. table.items.items };
}

impl Descriptors {
    /// The table of these descriptors. It takes no memory.
    pub fn new(items: Vec<Descriptor>) -> Descriptors
        ensures { result ≡ items.items }
    {
        Descriptors { items }
    }

    /// The descriptors, in the order of their places.
    #[inline(always)]
    pub fn as_slice(&self) -> &[Descriptor]
        ensures { result.now ≡ self.now }
    {
        &self.items
    }
}

/// The parameters of a call, or its results: rpc.capnp's `Payload`.
#[derive(Debug, Drop)]
pub struct Payload {
    /// `capTable`.
    pub descriptors: Descriptors,
    /// Where `content` has capabilities: each path through its structs, with the index into the table, depth first by
    /// pointer number.
    pub fields: Fields,
}

/// What a Return says of its call: the union of rpc.capnp's `Return`.
#[derive(Debug, Drop)]
pub enum Outcome {
    /// `results`.
    Results(Payload),
    /// `exception`, which isn't read.
    Exception,
    /// `canceled`.
    Canceled,
    /// `resultsSentElsewhere`: the results stay with their answerer, as its caller asked.
    Elsewhere,
    /// `takeFromOtherQuestion`: the results are those of this other question of the Return's sender.
    TakeFrom(u32),
}

/// What a promise was resolved to: the union of rpc.capnp's `Resolve`.
#[derive(Debug, Drop)]
pub enum Resolution {
    /// `cap`.
    Cap(Descriptor),
    /// `exception`, which isn't read.
    Exception,
}

/// Which way a Disembargo goes: `context` of rpc.capnp's `Disembargo`.
#[derive(Clone, Copy, Debug, PartialEq, Eq)]
pub enum Loopback {
    /// `senderLoopback`: the receiver is asked to send it back.
    Sender,
    /// `receiverLoopback`: it comes back.
    Receiver,
}

/// What a Call says beside its target and its parameters: numbers and a flag of rpc.capnp's `Call`.
#[derive(Clone, Copy, Debug, PartialEq, Eq)]
pub struct CallHead {
    /// `questionId`, a number that the sender chose.
    pub question: u32,
    /// `interfaceId`.
    pub interface: u64,
    /// `methodId`.
    pub method: u16,
    /// `sendResultsTo` is `yourself`: the results stay with their answerer, to be taken from there.
    pub yourself: bool,
}

/// What a Return says beside its outcome: a number and flags of rpc.capnp's `Return`.
#[derive(Clone, Copy, Debug, PartialEq, Eq)]
pub struct ReturnHead {
    /// `answerId`, the number of the question that is answered.
    pub answer: u32,
    /// `releaseParamCaps`: whether the capabilities of the call's parameters are given back.
    pub release_param_caps: bool,
    /// `noFinishNeeded`: whether the number may be opened again without a Finish. By the first edition it never is.
    pub light: bool,
}

/// A message of the protocol's level 1: rpc.capnp's `Message`.
#[derive(Debug)]
pub enum RpcMessage {
    /// Asks for the peer's bootstrap object.
    Bootstrap {
        /// `questionId`, a number that the sender chose.
        question: u32,
    },
    /// Asks for a method to be called.
    Call {
        /// Its numbers, and where its results go.
        head: CallHead,
        /// `target`.
        target: Target,
        /// `params`.
        params: Payload,
    },
    /// Answers a Bootstrap or a Call.
    Return {
        /// Its number, and what goes with it.
        head: ReturnHead,
        /// The union of results and what may stand in their place.
        outcome: Outcome,
    },
    /// Says that a question's answer isn't needed any more.
    Finish {
        /// `questionId`, a number that the sender chose.
        question: u32,
        /// `releaseResultCaps`: whether the capabilities of the results are given back.
        release_result_caps: bool,
    },
    /// Says what a promise among the sender's exports became.
    Resolve {
        /// `promiseId`, a number of the sender's exports.
        promise: u32,
        /// The union of a capability and an exception.
        resolution: Resolution,
    },
    /// Gives back references to one of the receiver's exports.
    Release {
        /// `id`, a number of the receiver's exports.
        id: u32,
        /// `referenceCount`: how many references are given back.
        count: u32,
    },
    /// Makes sure that calls that took a longer way have come.
    Disembargo {
        /// `embargoId` of `senderLoopback` or of `receiverLoopback`.
        number: u32,
        /// Which of the two it is.
        loopback: Loopback,
        /// `target`.
        target: Target,
    },
    /// Ends the connection; its reason isn't read.
    Abort,
}

impl Drop for RpcMessage {
    fn drop(self) {
        match self {
            Self::Bootstrap { question: _ } => {}
            Self::Call {
                head: _,
                target: _,
                params: _,
            } => {}
            Self::Return {
                head: _,
                outcome: _,
            } => {}
            Self::Finish {
                question: _,
                release_result_caps: _,
            } => {}
            Self::Resolve {
                promise: _,
                resolution: _,
            } => {}
            Self::Release { id: _, count: _ } => {}
            Self::Disembargo {
                number: _,
                loopback: _,
                target: _,
            } => {}
            Self::Abort => {}
        }
    }
}
