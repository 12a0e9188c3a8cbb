//! Both directions of a connection.

ghost use Rattle.std.specs.Prelude.{◌≡◌, ◌+◌, ◌<◌, length, IsOk, OnOk, OnErr};
ghost use Rattle.lock_step.specs.Directions.{between, nothing_passed, with_received_by, with_sent_by, way_to};
ghost use Rattle.link_check.specs.Prefix.{Ends, IsOutcome};
ghost use Rattle.link_check.specs.declared.link_outcome.LinkOutcome.{LinkOutcome};

use crate::frame_queue::FrameQueue;
use crate::link_end::LinkEnd;
use bytes::Bytes;
use link_check::LinkOutcome;
use std::alloc::{AllocError, Global};
use std::marker::Model;

/// Both directions of a connection, compared while the logs of its two ends are read. Contracts see what passed each way.
#[derive(Drop)]
pub struct LinkQueues {
    to_first: FrameQueue,
    to_second: FrameQueue,
}

impl Model for LinkQueues {
    ghost use Rattle.std.specs.Prelude.{◌+◌, ◌<◌, ◌^◌, length};
    ghost use Rattle.lock_step.specs.Directions.{BothWays};

    ghost Value = { BothWays };

    ghost view = { λ link. record {
      to_first = link.to_first;
      to_second = link.to_second;
    } };

    ghost invariant = { λ link. length link.to_first.sent + length link.to_second.sent < 2 ^ 64 };
}

impl LinkQueues {
    /// Before any frame. It takes no memory.
    pub fn new(alloc: Global) -> LinkQueues
        ensures { result ≡ nothing_passed }
    {
        LinkQueues {
            to_first: FrameQueue::new(alloc),
            to_second: FrameQueue::new(alloc),
        }
    }

    /// An end sends a frame to the other.
    ///
    /// # Errors
    ///
    /// Out of memory, and then nothing changes. A frame of 2^32 bytes or more that is to wait is answered so too.
    pub fn send(&mut self, end: LinkEnd, frame: &Bytes) -> Result<(), AllocError>
        ensures ok { OnOk result (self.new ≡ with_sent_by end frame.now self.old) }
        ensures err { OnErr result (self.new ≡ self.old) }
    {
        if self.sent_count() == u64::MAX {
            return Err(AllocError);
        }
        match end {
            LinkEnd::First => self.to_second.send(frame),
            LinkEnd::Second => self.to_first.send(frame),
        }
    }

    /// An end receives a frame from the other; it may come before the one that was sent.
    ///
    /// # Errors
    ///
    /// Out of memory, and then nothing changes. A frame of 2^32 bytes or more that is to wait is answered so too.
    pub fn receive(&mut self, end: LinkEnd, frame: &Bytes) -> Result<(), AllocError>
        ensures ok { OnOk result (self.new ≡ with_received_by end frame.now self.old) }
        ensures err { OnErr result (self.new ≡ self.old) }
        // A frame that was sent already takes no memory.
        ensures met { length (way_to end self.old).received < length (way_to end self.old).sent → IsOk result }
    {
        match end {
            LinkEnd::First => self.to_first.receive(frame),
            LinkEnd::Second => self.to_second.receive(frame),
        }
    }

    /// How many frames both ends together sent.
    pub fn sent_count(&self) -> u64
        ensures { result ≡ length self.now.to_first.sent + length self.now.to_second.sent }
    {
        self.to_first.sent_count() + self.to_second.sent_count()
    }

    /// What is found of the connection, if this were all: what [`link_check::check_link`] finds of the logs of its ends, where
    /// these are their frames. The first end is tried first, then the least message. The two numbers are those of the vats at
    /// its ends.
    pub fn outcome(&self, first: u32, second: u32) -> LinkOutcome
        // What it means, of logs with these frames.
        ensures meaning { (link : Ends) → link.first.vat ≡ first → link.second.vat ≡ second → between link ≡ self.now
            → IsOutcome link result }
        // They have no other outcome.
        ensures only { (link : Ends) (other : LinkOutcome) → link.first.vat ≡ first → link.second.vat ≡ second
            → between link ≡ self.now → IsOutcome link other → other ≡ result }
    {
        if let Some(message) = self.to_first.fault() {
            return LinkOutcome::Broken {
                end: first,
                message,
            };
        }
        if let Some(message) = self.to_second.fault() {
            return LinkOutcome::Broken {
                end: second,
                message,
            };
        }
        let delivered = self.to_first.received_count() + self.to_second.received_count();
        LinkOutcome::Good {
            delivered,
            in_flight: self.sent_count() - delivered,
        }
    }
}
