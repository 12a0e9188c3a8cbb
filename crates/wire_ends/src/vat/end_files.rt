//! The files of both ends, as one end looks at them.

use crate::end_tables::Becomes;
use wire_cut::End;
use wire_plan::{Entry, FilePlan, Kind, Planned, WirePlan};

/// The plans of both files, as one end looks at them.
#[derive(Clone, Copy)]
pub(crate) struct EndFiles<'a> {
    /// The end whose file is the own one.
    pub end: End,
    /// Both plans.
    pub plan: &'a WirePlan,
}

impl<'a> EndFiles<'a> {
    /// The plan of its own file.
    pub(crate) fn own(&self) -> &'a FilePlan {
        self.plan.file(self.end)
    }

    /// The plan of the peer's file.
    pub(crate) fn peer(&self) -> &'a FilePlan {
        self.plan.file(self.end.other())
    }

    /// Its own message at a place.
    pub(crate) fn message(&self, place: usize) -> Option<&'a Planned> {
        self.own().messages.get(place)
    }

    /// The peer's message at a place.
    pub(crate) fn peer_message(&self, place: usize) -> Option<&'a Planned> {
        self.peer().messages.get(place)
    }

    /// Whether all messages are sent, or one that isn't read is the last that was, where so many were sent.
    pub(crate) fn is_done(&self, sent: usize) -> bool {
        sent >= self.own().messages.len() || self.is_cut(sent)
    }

    /// Whether the last of so many messages isn't read.
    pub(crate) fn is_cut(&self, sent: usize) -> bool {
        let last = sent.checked_sub(1).and_then(|last| self.message(last));
        last.is_some_and(|last| last.kind == Kind::Unread)
    }

    /// Whether there is a message of the peer's at a place behind which others may come.
    pub(crate) fn is_receivable(&self, place: usize) -> bool {
        let message = self.peer_message(place);
        message.is_some_and(|message| !matches!(message.kind, Kind::Abort | Kind::Unread))
    }

    /// The own Return that answers the question which the peer's frame at this place opens.
    pub(crate) fn return_to(&self, opening: usize) -> Option<&'a Planned> {
        self.message(self.peer().ties.pair_of(opening)?)
    }

    /// The digest of the peer's Call at a place.
    pub(crate) fn digest_of(&self, opening: usize) -> Option<u64> {
        match self.peer_message(opening)?.kind {
            Kind::Call(call) => Some(call.digest),
            _ => None,
        }
    }

    /// The place of the peer's frame whose Return takes the results of the own Call at this place.
    pub(crate) fn handed_on(&self, place: usize) -> Option<usize> {
        let own = self.own();
        own.ties.pair_of(own.ties.take_of(place)?)
    }

    /// The own opening that is tied to the peer's message which takes the results of the question that the peer's frame at
    /// this place opens.
    pub(crate) fn taking(&self, opening: usize) -> Option<usize> {
        let peer = self.peer();
        peer.ties.pair_of(peer.ties.take_of(opening)?)
    }

    /// What the promise of a group becomes by its Resolve.
    pub(crate) fn group_becomes(&self, group: usize) -> Becomes {
        let Some(resolve) = self.own().groups.resolve(group) else {
            return Becomes::Untold;
        };
        match self.message(resolve).and_then(|message| message.entry(0)) {
            Some(Entry::NoCap) | None => Becomes::Broken,
            Some(entry) => Becomes::Entry(entry),
        }
    }
}
