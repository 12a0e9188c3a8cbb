//! From the records of a log to those that are judged.

ghost use Rattle.std.specs.Prelude.{◌≡◌, ℕ, List, Result, None};
ghost use Rattle.rpc_view.specs.Message.{message_of_bytes};
ghost use Rattle.rpc_view.specs.Reading.{GivesInMemory};
ghost use Rattle.rpc_view.specs.declared.view_error.ViewError.{ViewError as Fault};
ghost use Rattle.vat_log.specs.Passages.{frame_of};
ghost use Rattle.decoded_records.specs.Types.{RpcMessage as Message};
ghost use Rattle.decoded_records.specs.Decoding.{decoded_by};

use crate::decoded::DecodedRecord;
use bytes::Bytes;
use cap_frame::Frame;
use rpc_view::{Edition, Limits, RpcMessage, ViewError, read_message};
use std::alloc::Global;
use vat_log::Body;

/// The message of a frame's bytes, which stay where they are.
#[inline]
fn message_in(
    alloc: Global,
    bytes: &Bytes,
    limits: Limits,
    edition: Edition,
) -> Result<RpcMessage, ViewError>
    ensures { GivesInMemory (λ message. message) result
        (message_of_bytes edition bytes.now limits) }
{
    let frame = Frame::read(bytes.as_slice())?;
    read_message(alloc, &frame, limits, edition)
}

/// A record that has no frame, as it is judged.
fn own(body: &Body) -> Result<DecodedRecord, ViewError>
    requires { frame_of body.now ≡ None }
    ensures { (read : List ℕ → Result Message Fault)
        → GivesInMemory (λ event. event) result (decoded_by read body.now) }
{
    match *body {
        Body::Host { reference, object } => Ok(DecodedRecord::Host { reference, object }),
        Body::Vow { reference } => Ok(DecodedRecord::Vow { reference }),
        Body::Fulfil { reference, to } => Ok(DecodedRecord::Fulfil { reference, to }),
        Body::Break { reference } => Ok(DecodedRecord::Break { reference }),
        Body::Make {
            call,
            reference,
            interface,
            method,
        } => Ok(DecodedRecord::Make {
            call,
            reference,
            interface,
            method,
        }),
        Body::Field {
            reference,
            call,
            ref path,
        } => {
            let path = path.copy()?;
            Ok(DecodedRecord::Field {
                reference,
                call,
                path,
            })
        }
        Body::Deliver { call, object } => Ok(DecodedRecord::Deliver { call, object }),
        Body::Answer { call, ref results } => {
            let results = results.copy()?;
            Ok(DecodedRecord::Answer { call, results })
        }
        Body::AnswerBy { call, by } => Ok(DecodedRecord::AnswerBy { call, by }),
        Body::Fault { call } => Ok(DecodedRecord::Fault { call }),
        Body::Send { .. } | Body::Receive { .. } => unreachable!(),
    }
}

impl DecodedRecord {
    /// What a record of a log says, as it is judged: its frame, if it has one, is read within the limits by an edition.
    ///
    /// # Errors
    ///
    /// Why the frame isn't read, or that memory ran out.
    pub fn read(
        alloc: Global,
        body: &Body,
        limits: Limits,
        edition: Edition,
    ) -> Result<DecodedRecord, ViewError>
        ensures { GivesInMemory (λ event. event) result
            (decoded_by (λ bytes. message_of_bytes edition bytes limits) body.now) }
    {
        match body {
            Body::Send {
                connection,
                call,
                references,
                frame,
            } => Ok(DecodedRecord::Wire {
                sent: true,
                connection: *connection,
                call: *call,
                references: references.copy()?,
                message: message_in(alloc, frame, limits, edition)?,
            }),
            Body::Receive {
                connection,
                call,
                references,
                frame,
            } => Ok(DecodedRecord::Wire {
                sent: false,
                connection: *connection,
                call: *call,
                references: references.copy()?,
                message: message_in(alloc, frame, limits, edition)?,
            }),
            _ => own(body),
        }
    }
}
