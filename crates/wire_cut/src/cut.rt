//! Cutting a file into frames.

ghost use Rattle.std.specs.Prelude.{◌≡◌, IfOk, IfErr};
ghost use Rattle.wire_cut.specs.Frames.{AreFrames};
ghost use Rattle.wire_cut.specs.declared.cut.CutFault.TheVariants.{OutOfMemory};
ghost use Rattle.wire_cut.specs.Glue.{IsNextFrame, IsCutFault};

use crate::table::is_too_long;
use bytes::Bytes;
use cap_frame::{Frame, FrameError};
use std::alloc::{AllocError, AllocFailed, Global};

/// What one end sent: its whole frames in order, and how many bytes stand behind the last one.
#[derive(Debug, Drop)]
pub struct WireFile {
    /// The frames, in the order in which they were sent.
    pub frames: Vec<Bytes>,
    /// How many bytes stand behind the last whole frame: a frame that the capture cut off.
    pub left: usize,
}

/// Why a file isn't cut into frames.
#[derive(Clone, Copy, Debug, PartialEq, Eq)]
pub enum CutFault {
    /// Where the frame of this number, counted from 0, should begin, no frame does: its table has too many segments. So it
    /// is with packed streams, and with those that are encrypted.
    TooManySegments(u64),
    /// The frame of this number, counted from 0, is longer than a frame may be, whether or not it is cut off.
    TooLong(u64),
    /// Out of memory.
    OutOfMemory,
}

impl From<AllocError> for CutFault {
    ghost from_gives = { λ _ e. e ≡ OutOfMemory };

    fn from(_e: AllocError) -> CutFault {
        CutFault::OutOfMemory
    }
}

impl<T: Drop> From<AllocFailed<T>> for CutFault {
    ghost from_gives = { λ _ e. e ≡ OutOfMemory };

    fn from(_e: AllocFailed<T>) -> CutFault {
        CutFault::OutOfMemory
    }
}

/// What stands next in a file.
#[derive(Drop)]
enum Next {
    /// This frame.
    Whole(Bytes),
    /// A frame that is cut off, or nothing.
    Cut,
    /// What can't be a frame: its table has too many segments.
    TooMany,
    /// A frame, whole or cut off, that is longer than a frame may be.
    TooLong,
}

/// Cuts off the frame that stands first, if a whole one does.
fn cut_next(rest: &mut Bytes) -> Result<Next, AllocError>
    ensures { IfOk result (IsNextFrame rest.old rest.new) }
{
    if is_too_long(rest.as_slice()) {
        return Ok(Next::TooLong);
    }
    match Frame::first_len(rest.as_slice()) {
        Ok(len) => Ok(Next::Whole(rest.split_to(len)?)),
        Err(FrameError::Short) => Ok(Next::Cut),
        Err(FrameError::TooManySegments) => Ok(Next::TooMany),
        Err(FrameError::Trailing) => unreachable!(),
        Err(FrameError::NoRoot) => unreachable!(),
    }
}

/// The frames of a file, which share its bytes: each is a frame by the stream framing of the Cap'n Proto encoding specification
/// ("Serialization Over a Stream"), and no longer than a frame may be. A frame that is cut off by the end of the file is left out.
///
/// # Errors
///
/// `TooManySegments` with the number of the first frame that can't begin where it stands, or `TooLong` with that of the first
/// one that is longer than a frame may be, also where it is cut off; or out of memory.
pub fn cut_frames(alloc: Global, bytes: &Bytes) -> Result<WireFile, CutFault>
    ensures ok { IfOk result (λ file. AreFrames bytes.now file.frames.items file.left) }
    ensures err { IfErr result (IsCutFault bytes.now) }
{
    let mut frames = Vec::new(alloc);
    let mut rest = bytes.slice(0..bytes.len())?;
    loop {
        match cut_next(&mut rest)? {
            Next::Whole(frame) => frames.push(frame)?,
            Next::Cut => {
                let left = rest.len();
                return Ok(WireFile { frames, left });
            }
            Next::TooMany => return Err(CutFault::TooManySegments(frames.len() as u64)),
            Next::TooLong => return Err(CutFault::TooLong(frames.len() as u64)),
        }
    }
}
