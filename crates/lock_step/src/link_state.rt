//! A link while turns are taken.

ghost use Rattle.std.specs.Prelude.{◌≡◌, [], true, min, max, OnOk, OnErr};
ghost use Rattle.lock_step.specs.Directions.{between};
ghost use Rattle.link_check.specs.Prefix.{Ends, IsOutcome};
ghost use Rattle.link_check.specs.declared.link_outcome.LinkOutcome.{LinkOutcome};
ghost use Rattle.lock_step.specs.Glue.{end_of, state_of, link_with_turn};

use crate::{LinkEnd, LinkQueues};
use case_book::Link;
use link_check::LinkOutcome;
use std::alloc::{AllocError, Global};
use vat_log::Body;

/// A link while turns are taken: the vats at its ends, and what they passed to each other.
#[derive(Drop)]
pub(crate) struct LinkState {
    /// The smaller vat number.
    first: u32,
    /// The other one.
    second: u32,
    queues: LinkQueues,
}

impl LinkState {
    /// Before any turn. It takes no memory.
    pub(crate) fn new(alloc: Global, link: &Link) -> LinkState
        ensures { result ≡ state_of [] link.now }
    {
        LinkState {
            first: link.a.min(link.b),
            second: link.a.max(link.b),
            queues: LinkQueues::new(alloc),
        }
    }

    /// Whether the ends of a link are these two vats.
    pub(crate) fn is_between(&self, link: &Link) -> bool
        ensures is { result ≡ true → (self.now.first ≡ min link.now.a link.now.b) × (self.now.second ≡ max link.now.a link.now.b) }
        ensures isnt { self.now.first ≡ min link.now.a link.now.b → self.now.second ≡ max link.now.a link.now.b → result ≡ true }
    {
        self.first == link.a.min(link.b) && self.second == link.a.max(link.b)
    }

    /// The end at which the vat is.
    fn end_of(&self, vat: u32) -> Option<LinkEnd>
        ensures { result ≡ end_of self.now.first self.now.second vat }
    {
        if vat == self.first {
            return Some(LinkEnd::First);
        }
        (vat == self.second).then_some(LinkEnd::Second)
    }

    /// A vat takes a record; where it is at an end, the record's frame passes there. The only error is that memory ran out,
    /// and then nothing changes.
    pub(crate) fn pass(&mut self, vat: u32, body: &Body) -> Result<(), AllocError>
        ensures ok { OnOk result (self.new ≡ link_with_turn vat body.now self.old) }
        ensures err { OnErr result (self.new ≡ self.old) }
    {
        let Some(end) = self.end_of(vat) else {
            return Ok(());
        };
        match body {
            Body::Send { frame, .. } => self.queues.send(end, frame),
            Body::Receive { frame, .. } => self.queues.receive(end, frame),
            _ => Ok(()),
        }
    }

    /// What is found of the link, if this were all.
    pub(crate) fn outcome(&self) -> LinkOutcome
        ensures meaning { (ends : Ends) → ends.first.vat ≡ self.now.first → ends.second.vat ≡ self.now.second
            → between ends ≡ self.now.queues → IsOutcome ends result }
        ensures only { (ends : Ends) (other : LinkOutcome) → ends.first.vat ≡ self.now.first
            → ends.second.vat ≡ self.now.second → between ends ≡ self.now.queues
            → IsOutcome ends other → other ≡ result }
    {
        self.queues.outcome(self.first, self.second)
    }
}
