//! What one record opens, binds, names and uses.

ghost use Rattle.std.specs.Prelude.{◌≡◌, option_to_list};
ghost use Rattle.decoded_records.specs.Questions.{question_opened, question_returned, question_returned_lightly, question_finished, question_taken, asks_elsewhere, noted_call};
ghost use Rattle.decoded_records.specs.Lives.{descriptors, number_introduced, promise_resolved};
ghost use Rattle.decoded_records.specs.Loopbacks.{sender_loopback, receiver_loopback};
ghost use Rattle.decoded_records.specs.Views.{references};
ghost use Rattle.decoded_records.specs.Uses.{question_targeted, question_described, number_targeted, number_described, number_released};
ghost use Rattle.decoded_records.specs.Bindings.{new_references, new_calls};

use crate::decoded::DecodedRecord;
use crate::effects;
use crate::table_key::TableKey;
use rpc_view::{Descriptor, Loopback, RpcMessage, Target};

impl DecodedRecord {
    /// The question that it opens: a Bootstrap's or a Call's.
    pub fn question_opened(&self) -> Option<TableKey>
        ensures { result ≡ question_opened self.now }
    {
        effects::question_opened(self)
    }

    /// The question that it returns.
    pub fn question_returned(&self) -> Option<TableKey>
        ensures { result ≡ question_returned self.now }
    {
        effects::question_returned(self)
    }

    /// The question that it returns by a Return that says that no Finish is needed (rpc.capnp, `Return.noFinishNeeded`).
    pub fn question_returned_lightly(&self) -> Option<TableKey>
        ensures { result ≡ question_returned_lightly self.now }
    {
        effects::question_returned_lightly(self)
    }

    /// The question that it finishes.
    pub fn question_finished(&self) -> Option<TableKey>
        ensures { result ≡ question_finished self.now }
    {
        effects::question_finished(self)
    }

    /// The question whose results it takes: one of its own sender's.
    pub fn question_taken(&self) -> Option<TableKey>
        ensures { result ≡ question_taken self.now }
    {
        effects::question_taken(self)
    }

    /// The number under which it asks for an echo: one of its sender's.
    pub fn sender_loopback(&self) -> Option<TableKey>
        ensures { result ≡ sender_loopback self.now }
    {
        match self {
            DecodedRecord::Wire {
                sent,
                connection,
                message: RpcMessage::Disembargo {
                    number,
                    loopback: Loopback::Sender,
                    ..
                },
                ..
            } => Some(TableKey::of_sender(*sent, *connection, *number)),
            _ => None,
        }
    }

    /// The number that it echoes: one of its receiver's.
    pub fn receiver_loopback(&self) -> Option<TableKey>
        ensures { result ≡ receiver_loopback self.now }
    {
        effects::receiver_loopback(self)
    }

    /// The promise that it resolves: one of its sender's exports.
    pub fn promise_resolved(&self) -> Option<TableKey>
        ensures { result ≡ promise_resolved self.now }
    {
        effects::promise_resolved(self)
    }

    /// The number that one of its descriptors introduces: senderHosted and senderPromise name one of the sender's
    /// exports.
    pub fn number_introduced(&self, descriptor: &Descriptor) -> Option<TableKey>
        ensures { result ≡ number_introduced self.now descriptor.now }
    {
        effects::number_introduced(self, descriptor)
    }

    /// Whether it is a Call whose results are to be sent elsewhere: sendResultsTo is yourself.
    pub fn asks_elsewhere(&self) -> bool
        ensures { result ≡ asks_elsewhere self.now }
    {
        effects::asks_elsewhere(self)
    }

    /// The call noted beside it, 0 where none is.
    pub fn noted_call(&self) -> u64
        ensures { result ≡ noted_call self.now }
    {
        effects::noted_call(self)
    }

    /// Its descriptors, by place, counted from 0; a Resolve's stands at place 0.
    pub fn descriptors(&self) -> &[Descriptor]
        ensures { result.now ≡ descriptors self.now }
    {
        effects::descriptors(self)
    }

    /// The references noted beside it.
    pub fn references(&self) -> &[u64]
        ensures { result.now ≡ references self.now }
    {
        effects::references(self)
    }

    /// The references that it newly binds: of HOST, VOW, FIELD and RECV.
    pub fn new_references(&self) -> &[u64]
        ensures { result.now ≡ new_references self.now }
    {
        effects::new_references(self)
    }

    /// The call that it newly binds.
    pub fn new_call(&self) -> Option<u64>
        ensures { option_to_list result ≡ new_calls self.now }
    {
        match self {
            DecodedRecord::Make { call, .. }
            | DecodedRecord::Wire {
                call,
                message: RpcMessage::Bootstrap { .. },
                ..
            }
            | DecodedRecord::Wire {
                sent: false,
                call,
                message: RpcMessage::Call { .. },
                ..
            } => Some(*call),
            _ => None,
        }
    }

    /// The question that its target names: one of the sender's.
    pub fn question_targeted(&self) -> Option<TableKey>
        ensures { result ≡ question_targeted self.now }
    {
        match self {
            DecodedRecord::Wire {
                sent,
                connection,
                message: RpcMessage::Call {
                    target: Target::Promised(number, _),
                    ..
                }
                | RpcMessage::Disembargo {
                    target: Target::Promised(number, _),
                    ..
                },
                ..
            } => Some(TableKey::of_sender(*sent, *connection, *number)),
            _ => None,
        }
    }

    /// The question that one of its descriptors names: one of the sender's.
    pub fn question_described(&self, descriptor: &Descriptor) -> Option<TableKey>
        ensures { result ≡ question_described self.now descriptor.now }
    {
        match (self, descriptor) {
            (
                DecodedRecord::Wire {
                    sent,
                    connection,
                    ..
                },
                Descriptor::ReceiverAnswer(number, _),
            ) => Some(TableKey::of_sender(*sent, *connection, *number)),
            _ => None,
        }
    }

    /// The number that its target names: one of the receiver's exports.
    pub fn number_targeted(&self) -> Option<TableKey>
        ensures { result ≡ number_targeted self.now }
    {
        match self {
            DecodedRecord::Wire {
                sent,
                connection,
                message: RpcMessage::Call {
                    target: Target::Imported(number),
                    ..
                }
                | RpcMessage::Disembargo {
                    target: Target::Imported(number),
                    ..
                },
                ..
            } => Some(TableKey::of_receiver(*sent, *connection, *number)),
            _ => None,
        }
    }

    /// The number that one of its descriptors uses: receiverHosted names one of the receiver's exports.
    pub fn number_described(&self, descriptor: &Descriptor) -> Option<TableKey>
        ensures { result ≡ number_described self.now descriptor.now }
    {
        match (self, descriptor) {
            (
                DecodedRecord::Wire {
                    sent,
                    connection,
                    ..
                },
                Descriptor::ReceiverHosted(number),
            ) => Some(TableKey::of_receiver(*sent, *connection, *number)),
            _ => None,
        }
    }

    /// The number that it releases: one of the receiver's exports.
    pub fn number_released(&self) -> Option<TableKey>
        ensures { result ≡ number_released self.now }
    {
        match self {
            DecodedRecord::Wire {
                sent,
                connection,
                message: RpcMessage::Release { id: number, .. },
                ..
            } => Some(TableKey::of_receiver(*sent, *connection, *number)),
            _ => None,
        }
    }
}
