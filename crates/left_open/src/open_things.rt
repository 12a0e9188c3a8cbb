//! What can be open at the end of a log.

use vat_view::TableKey;

/// Something that is open at the end of a log, with the number of the record that opened it, counted from 0.
#[derive(Clone, Copy, Debug, PartialEq, Eq)]
pub enum Open {
    /// A question without a Return (rpc.capnp, the comments of QuestionId and of Return).
    Question {
        /// The question.
        question: TableKey,
        /// The call that its vat noted beside the Bootstrap or Call.
        call: u64,
        /// The record of the Bootstrap or Call.
        at: usize,
    },
    /// A question with a Return that asks for a Finish, and without one (rpc.capnp, the comments of Finish and of
    /// `Return.noFinishNeeded`).
    Unfinished {
        /// The question.
        question: TableKey,
        /// The call that its vat noted beside the Bootstrap or Call.
        call: u64,
        /// The record of the Bootstrap or Call.
        at: usize,
    },
    /// A senderLoopback without an echo (rpc.capnp, the comments of Disembargo).
    Loopback {
        /// Its embargo number.
        number: TableKey,
        /// The record of the senderLoopback.
        at: usize,
    },
    /// A promise of the vat's own that was neither kept nor broken.
    Promise {
        /// The reference under which it was vowed.
        reference: u64,
        /// The record of the VOW.
        at: usize,
    },
    /// An export or import that is held (rpc.capnp, the comments of ExportId, ImportId and Release).
    Number {
        /// The export or import.
        number: TableKey,
        /// How often it is held: how often it was introduced more than given back.
        count: u64,
        /// Whether it came as a promise and has had no Resolve.
        unresolved: bool,
        /// The record that began its life.
        at: usize,
        /// The place of the descriptor there that did, counted from 0.
        place: usize,
    },
}
