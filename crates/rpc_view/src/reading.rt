//! Reading messages.

ghost use Rattle.std.specs.Prelude.{◌≡◌, ◌≢◌, ◌≤◌, List, [], ◌∷◌, ℕ, IfOk, Ok, Err};
ghost use Rattle.cap_frame.specs.declared.frame_error.FrameError.{FrameError};
ghost use Rattle.cap_frame.specs.Segments.{segments_of};
ghost use Rattle.cap_reader.specs.declared.read_error.ReadError.TheVariants.{OutOfMemory};
ghost use Rattle.cap_reader.specs.Tree.{root_tree};
ghost use Rattle.rpc_view.specs.Reading.{GivesInMemory, run};
ghost use Rattle.rpc_view.specs.Glue.{RunsInMemory};
ghost use Rattle.rpc_view.specs.Message.{message_in, message_of, message_of_bytes, HasPrice};
ghost use Rattle.rpc_view.specs.Spelling.{Spells};
ghost use Rattle.rpc_view.specs.declared.message.RpcMessage.{RpcMessage};
ghost use Rattle.rpc_view.specs.declared.view_error.ViewError.TheVariants.{Read, Frame as NoFrame};

use crate::bodies::{answer, bootstrap, call, disembargo, finish, release, resolve};
use crate::edition::Edition;
use crate::layouts::MESSAGE_TAG;
use crate::message::RpcMessage;
use crate::structs::{root_struct, u16_of};
use crate::view_error::{Outside, ViewError};
use bytes::Bytes;
use cap_frame::Frame;
use cap_reader::Limits;
use std::alloc::Global;

/// The message at the root pointer of a frame.
#[tactic(auto, using(crate::proofs::Running::run_then), unfolding(crate::specs::Message::message_in, crate::specs::Message::body_in, cap_reader::specs::Reading::pay_for, cap_reader::specs::Reading::and_then))]
fn message(
    alloc: Global,
    frame: &Frame,
    limits: &mut Limits,
    edition: Edition,
) -> Result<RpcMessage, ViewError>
    ensures { RunsInMemory (λ found. found) result limits.new.words
        (run (message_in edition (root_tree limits.old.depth frame.now)) limits.old.words) }
{
    let message = root_struct(frame, limits)?;
    match u16_of(frame, &message, MESSAGE_TAG) {
        0 => Err(ViewError::Outside(Outside::Unimplemented)),
        1 => Ok(RpcMessage::Abort),
        2 => call(alloc, frame, &message, limits, edition),
        3 => answer(alloc, frame, &message, limits, edition),
        4 => finish(frame, &message, limits),
        5 => resolve(alloc, frame, &message, limits),
        6 => release(frame, &message, limits),
        8 => bootstrap(frame, &message, limits),
        13 => disembargo(alloc, frame, &message, limits),
        7..=12 => Err(ViewError::Outside(Outside::Level)),
        _ => Err(ViewError::BadTag),
    }
}

/// The message of a frame, within limits: as rpc.capnp lays its structs out in this edition. A null root pointer reads
/// as a Message of defaults.
///
/// Errors: `Read` where a pointer can't be followed within the limits, `BadTag` for a tag that this profile doesn't
/// list, `Outside` for what is listed and outside of this profile or of the edition, `OutOfMemory`. The first one in the
/// order of reading is answered: the Message and its tag; then the data of the body, judged whole, where of several
/// faults the one is answered that comes first in the order `BadTag`, `Level`, `LaterField`; then what its pointers
/// hold, a capability table before the content, and each entry of a table, and each operation of a transform, with what
/// it holds before the next one.
pub fn read_message(
    alloc: Global,
    frame: &Frame,
    limits: Limits,
    edition: Edition,
) -> Result<RpcMessage, ViewError>
    // Which message, or which fault.
    ensures exact { GivesInMemory (λ message. message) result (message_of edition frame.now limits) }
    // A message that is spelled in one of the forms of Spells is read.
    ensures spelled { (words : List ℕ) (message : RpcMessage) (cost depth : ℕ)
        → Spells words message cost depth → frame.now ≡ words ∷ [] → cost ≤ limits.words
        → depth ≤ limits.depth → GivesInMemory (λ message. message) result (Ok message) }
    // More words never change a message, and with fewer than it costs it isn't read.
    ensures priced { IfOk result
        (λ message. (cost : ℕ) × (cost ≤ limits.words)
        × HasPrice edition frame.now limits.depth message cost) }
    // Running out of memory is `OutOfMemory` alone, and never a pointer's fault.
    ensures memory { result ≢ Err (Read OutOfMemory) }
{
    let mut limits = limits;
    message(alloc, frame, &mut limits, edition)
}

/// The message of a frame's bytes, within limits: [`read_message`] after the frame was read, whose fault is `Frame`.
pub fn read_bytes(
    alloc: Global,
    bytes: Bytes,
    limits: Limits,
    edition: Edition,
) -> Result<RpcMessage, ViewError>
    // Which message, or which fault.
    ensures exact { GivesInMemory (λ message. message) result (message_of_bytes edition bytes limits) }
    // Bytes that aren't a frame are refused by the fault of the frame, and never because memory ran out.
    ensures frame { (fault : FrameError) → segments_of bytes ≡ Err fault
        → result ≡ Err (NoFrame fault) }
    // Running out of memory is `OutOfMemory` alone, and never a pointer's fault.
    ensures memory { result ≢ Err (Read OutOfMemory) }
{
    let frame = Frame::read(bytes.as_slice())?;
    let mut limits = limits;
    message(alloc, &frame, &mut limits, edition)
}
