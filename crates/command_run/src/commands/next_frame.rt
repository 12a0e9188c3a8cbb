//! The pieces of a file of frames.

ghost use Rattle.std.specs.Prelude.{◌≡◌, ◌≢◌, ◌<◌, [], length, take, drop, OnOk, OnErr, IfOk};
ghost use Rattle.command_run.specs.FrameFiles.{piece_len};

use bytes::Bytes;
use cap_frame::Frame;
use std::alloc::AllocError;

/// Cuts the first piece off the bytes of a file of frames, which holds one after another: the frame that stands
/// first, by the stream framing of the Cap'n Proto encoding specification ("Serialization Over a Stream"), or all
/// that is left where no frame can be cut. The piece shares the bytes and copies none.
///
/// # Errors
///
/// Out of memory, where the count of owners can't be made or grow; the bytes are then as they were.
pub fn cut_piece(bytes: &mut Bytes) -> Result<Bytes, AllocError>
    ensures piece { IfOk result (λ piece. piece ≡ take (piece_len bytes.old) bytes.old) }
    ensures rest { OnOk result (bytes.new ≡ drop (piece_len bytes.old) bytes.old) }
    ensures kept { OnErr result (bytes.new ≡ bytes.old) }
    // What is left is shorter, as long as there is anything.
    ensures shorter { bytes.old ≢ [] → OnOk result (length bytes.new < length bytes.old) }
{
    let len = Frame::first_len(bytes.as_slice()).unwrap_or(bytes.len());
    bytes.split_to(len)
}
