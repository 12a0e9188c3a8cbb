//! Frames that wait, the first one first.

ghost use Rattle.std.specs.Prelude.{◌≡◌, ◌≤◌, ◌++◌, ◌∷◌, [], length, drop, slice_get, OnOk, OnErr};
ghost use Rattle.std.specs.Option.{option_copied};

use std::alloc::{AllocError, Global};
use std::collections::VecDeque;
use std::marker::Model;

/// Frames that wait, the first one first. Contracts see it as their list; they lie in one row of bytes, and nothing is
/// allocated for one of them alone.
#[derive(Drop)]
pub(crate) struct WaitingFrames {
    bytes: Vec<u8>,
    /// Where the first frame begins.
    begin: usize,
    /// How many bytes each frame has.
    sizes: VecDeque<u32>,
}

impl Model for WaitingFrames {
    ghost use Rattle.std.specs.Prelude.{List, ℕ};
    ghost use Rattle.lock_step.specs.QueuedFrames.{frames_in, AreWaitingFrames};

    ghost Value = { List (List ℕ) };

    ghost view = { λ w. frames_in w.sizes.items w.begin w.bytes.items };

    ghost invariant = { λ w. AreWaitingFrames w.sizes.items w.begin w.bytes.items };
}

/// Moves the bytes from a place on to the front, where those before it are at least half of all. It answers where they begin
/// now. So all moves together move no more bytes than are left out.
fn compact(bytes: &mut Vec<u8>, begin: usize) -> usize
    requires { begin ≤ length bytes.old.items }
    ensures rest { drop result bytes.new.items ≡ drop begin bytes.old.items }
    ensures within { result ≤ length bytes.new.items }
{
    let rest = bytes.len() - begin;
    if begin < rest {
        return begin;
    }
    bytes.copy_within(begin.., 0);
    bytes.truncate(rest);
    0
}

impl WaitingFrames {
    /// No frames. It takes no memory.
    pub(crate) fn new(alloc: Global) -> WaitingFrames
        ensures { result ≡ [] }
    {
        WaitingFrames {
            bytes: Vec::new(alloc),
            begin: 0,
            sizes: VecDeque::new(alloc),
        }
    }

    /// The first frame.
    pub(crate) fn first(&self) -> Option<&[u8]>
        ensures { option_copied result ≡ slice_get self.now 0 }
    {
        let size = *self.sizes.front()? as usize;
        Some(&self.bytes[self.begin..self.begin + size])
    }

    /// A frame waits behind the others. The only error is that memory ran out, which a frame of 2^32 bytes or more is
    /// answered by too.
    pub(crate) fn push(&mut self, frame: &[u8]) -> Result<(), AllocError>
        ensures ok { OnOk result (self.new ≡ self.old ++ frame.now ∷ []) }
        ensures err { OnErr result (self.new ≡ self.old) }
    {
        let Ok(size) = u32::try_from(frame.len()) else {
            return Err(AllocError);
        };
        self.bytes.reserve(frame.len())?;
        self.sizes.push_back(size)?;
        self.bytes.extend_from_slice(frame)
    }

    /// The first frame, if there is one, waits no longer.
    pub(crate) fn leave(&mut self)
        ensures { self.new ≡ drop 1 self.old }
    {
        let Some(size) = self.sizes.pop_front() else {
            return;
        };
        self.begin = compact(&mut self.bytes, self.begin + size as usize);
    }

    /// No frame waits any longer, and their memory is given back.
    pub(crate) fn clear(&mut self)
        ensures { self.new ≡ [] }
    {
        let alloc = *self.bytes.allocator();
        *self = WaitingFrames::new(alloc);
    }
}
