//! One direction of a connection.

ghost use Rattle.std.specs.Prelude.{◌≡◌, ◌<◌, [], length, IfNone, IfSome, IsOk, OnOk, OnErr};
ghost use Rattle.lock_step.specs.Directions.{with_received, with_sent};
ghost use Rattle.link_check.specs.Glue.{first_fault};
ghost use Rattle.link_check.specs.Prefix.{IsLeastFault, IsPrefix};

use crate::comparison::Comparison;
use bytes::Bytes;
use erased::Erased;
use std::alloc::{AllocError, Global};
use std::marker::Model;

/// One direction of a connection: what one end sent and what the other received. Contracts see both lists; it keeps only the
/// frames that one end has and the other hasn't yet, and none once two differ.
pub struct FrameQueue {
    sent: Erased<Bytes>,
    received: Erased<Bytes>,
    sent_count: u64,
    received_count: u64,
    comparison: Comparison,
}

impl Drop for FrameQueue {
    fn drop(self) {
        let Self {
            sent: _,
            received: _,
            sent_count: _,
            received_count: _,
            comparison: _,
        } = self;
    }
}

impl Model for FrameQueue {
    ghost use Rattle.std.specs.Prelude.{reverse};
    ghost use Rattle.lock_step.specs.Directions.{Direction};
    ghost use Rattle.lock_step.specs.QueuedFrames.{IsQueue};

    ghost Value = { Direction };

    ghost view = { λ queue. record {
      sent = reverse queue.sent.items;
      received = reverse queue.received.items;
    } };

    ghost invariant = { λ queue. IsQueue queue.sent.items queue.received.items queue.sent_count queue.received_count
        queue.comparison.difference queue.comparison.waiting };
}

impl FrameQueue {
    /// Before any frame. It takes no memory.
    pub fn new(alloc: Global) -> FrameQueue
        ensures sent { result.sent ≡ [] }
        ensures received { result.received ≡ [] }
    {
        FrameQueue {
            sent: Erased::new(),
            received: Erased::new(),
            sent_count: 0,
            received_count: 0,
            comparison: Comparison::new(alloc),
        }
    }

    /// The one end sends a frame. It is compared with the one of its number that was received, or its bytes wait for that.
    ///
    /// # Errors
    ///
    /// Out of memory, and then nothing changes. A frame of 2^32 bytes or more that is to wait is answered so too.
    pub fn send(&mut self, frame: &Bytes) -> Result<(), AllocError>
        ensures ok { OnOk result (self.new ≡ with_sent frame.now self.old) }
        ensures err { OnErr result (self.new ≡ self.old) }
        // A frame that was received already takes no memory.
        ensures met { length self.old.sent < length self.old.received → IsOk result }
    {
        let Some(count) = self.sent_count.checked_add(1) else {
            return Err(AllocError);
        };
        self.comparison
            .take(self.sent_count, self.received_count, frame.as_slice())?;
        self.sent = self.sent.with(frame);
        self.sent_count = count;
        Ok(())
    }

    /// The other end receives a frame, in the same way; it may come before the one that was sent.
    ///
    /// # Errors
    ///
    /// Out of memory, and then nothing changes. A frame of 2^32 bytes or more that is to wait is answered so too.
    pub fn receive(&mut self, frame: &Bytes) -> Result<(), AllocError>
        ensures ok { OnOk result (self.new ≡ with_received frame.now self.old) }
        ensures err { OnErr result (self.new ≡ self.old) }
        // A frame that was sent already takes no memory.
        ensures met { length self.old.received < length self.old.sent → IsOk result }
    {
        let Some(count) = self.received_count.checked_add(1) else {
            return Err(AllocError);
        };
        self.comparison
            .take(self.received_count, self.sent_count, frame.as_slice())?;
        self.received = self.received.with(frame);
        self.received_count = count;
        Ok(())
    }

    /// The least message that was received and isn't the one sent, counted from 0, if this were all: one that was received
    /// before it is sent is such a message too.
    pub fn fault(&self) -> Option<u64>
        ensures exact { result ≡ first_fault self.now.received self.now.sent }
        ensures none { IfNone result (IsPrefix self.now.received self.now.sent) }
        ensures some { IfSome result (λ message. IsLeastFault self.now.received self.now.sent message) }
    {
        if self.comparison.difference.is_some() {
            return self.comparison.difference;
        }
        if self.sent_count < self.received_count {
            return Some(self.sent_count);
        }
        None
    }

    /// How many frames the one end sent.
    pub fn sent_count(&self) -> u64
        ensures { result ≡ length self.now.sent }
    {
        self.sent_count
    }

    /// How many frames the other end received.
    pub fn received_count(&self) -> u64
        ensures { result ≡ length self.now.received }
    {
        self.received_count
    }
}
