//! The messages of records.

ghost use Rattle.std.specs.Prelude.{◌≡◌, IfOk};
ghost use Rattle.std.specs.Result.{result_ok};
ghost use Rattle.cap_reader.specs.Defaults.{default_limits};
ghost use Rattle.rpc_view.specs.Message.{message_of_bytes};
ghost use Rattle.picture.specs.Places.{message_of_body};

use bytes::Bytes;
use rpc_view::{Edition, Limits, RpcMessage, ViewError, read_bytes};
use std::alloc::{AllocError, Global};
use vat_log::Body;

/// The message of a frame, where it is read by an edition, within the default limits.
fn message_in(
    alloc: Global,
    frame: &Bytes,
    edition: Edition,
) -> Result<Option<RpcMessage>, AllocError>
    ensures { IfOk result
        (λ said. said ≡ result_ok (message_of_bytes edition frame.now default_limits)) }
{
    match read_bytes(alloc, frame.clone()?, Limits::default(), edition) {
        Ok(message) => Ok(Some(message)),
        Err(ViewError::OutOfMemory) => Err(AllocError),
        Err(_) => Ok(None),
    }
}

/// The message of a record, where it has one that is read by an edition, within the default limits.
pub fn message_of(
    alloc: Global,
    body: &Body,
    edition: Edition,
) -> Result<Option<RpcMessage>, AllocError>
    ensures { IfOk result (λ said. said ≡ message_of_body edition body.now) }
{
    match body.frame() {
        Some(frame) => message_in(alloc, frame, edition),
        None => Ok(None),
    }
}
