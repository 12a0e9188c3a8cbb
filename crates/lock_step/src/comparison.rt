//! Two lists of frames, compared as they grow.

ghost use Rattle.std.specs.Prelude.{◌≡◌, ◌<◌, ℕ, List, [], ◌∷◌, ◌++◌, length, None, IsOk, OnOk, OnErr};
ghost use Rattle.lock_step.specs.QueuedFrames.{AreCompared};

use crate::waiting_frames::WaitingFrames;
use std::alloc::{AllocError, Global};

/// What is known of two lists of frames: a message at which they differ, or else the frames that the longer one has beyond
/// the other.
#[derive(Drop)]
pub(crate) struct Comparison {
    pub(crate) difference: Option<u64>,
    pub(crate) waiting: WaitingFrames,
}

impl Comparison {
    /// Of two empty lists. It takes no memory.
    pub(crate) fn new(alloc: Global) -> Comparison
        ensures difference { result.difference ≡ None }
        ensures waiting { result.waiting ≡ [] }
    {
        Comparison {
            difference: None,
            waiting: WaitingFrames::new(alloc),
        }
    }

    /// One list grows by a frame: it had `count` frames, and the other has `others`. The only error is that memory ran out, and
    /// then nothing changes.
    #[inline]
    pub(crate) fn take(&mut self, count: u64, others: u64, frame: &[u8]) -> Result<(), AllocError>
        ensures ok { OnOk result ((own other : List (List ℕ)) → length own ≡ count → length other ≡ others
            → AreCompared own other self.old.difference self.old.waiting
            → AreCompared (own ++ frame.now ∷ []) other self.new.difference self.new.waiting) }
        ensures err { OnErr result (self.new ≡ self.old) }
        ensures met { count < others → IsOk result }
    {
        if self.difference.is_some() {
            return Ok(());
        }
        if others <= count {
            return self.waiting.push(frame);
        }
        if self.waiting.first() == Some(frame) {
            self.waiting.leave();
        } else {
            self.difference = Some(count);
            self.waiting.clear();
        }
        Ok(())
    }
}
