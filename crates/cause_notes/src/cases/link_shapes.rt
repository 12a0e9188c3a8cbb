//! What befell the frames of one direction: one is missing, came twice, was never sent, or two were exchanged.

use crate::cases::frame_streams::{PassedFrame, Stream};
use past_records::NoteText;

/// The frames of one direction of a connection, as they were sent and as they were received.
#[derive(Drop)]
pub(crate) struct Direction<'a> {
    pub(crate) sent: Stream<'a>,
    pub(crate) received: Stream<'a>,
}

/// The frames from this one on.
fn rest<'a, 'b>(frames: &'b [PassedFrame<'a>], from: usize) -> &'b [PassedFrame<'a>] {
    let (_, rest) = frames.split_at(from.min(frames.len()));
    rest
}

/// Whether all frames that came are those that went, from the first on.
pub(crate) fn is_prefix(came: &[PassedFrame<'_>], went: &[PassedFrame<'_>]) -> bool {
    let mut pairs = came.iter().zip(went.iter());
    came.len() <= went.len()
        && pairs.all(|(one, other)| one.frame.as_slice() == other.frame.as_slice())
}

impl Direction<'_> {
    /// Whether all that was received from one place on is what was sent from another on.
    fn goes_on(&self, received: usize, sent: usize) -> bool {
        let came = rest(self.received.frames.as_slice(), received);
        is_prefix(came, rest(self.sent.frames.as_slice(), sent))
    }

    /// Whether the frame that was received at a place is the one that was sent at another.
    fn is_same(&self, received: usize, sent: usize) -> bool {
        match (
            self.received.frames.get(received),
            self.sent.frames.get(sent),
        ) {
            (Some(came), Some(went)) => came.frame.as_slice() == went.frame.as_slice(),
            _ => false,
        }
    }

    /// The later message with which this one was exchanged, where all others are alike.
    fn exchanged_with(&self, at: usize) -> Option<usize> {
        let mut later = at.saturating_add(1)..self.sent.frames.len();
        let other = later.find(|other| self.is_same(at, *other))?;
        let next = other.saturating_add(1);
        (self.is_same(other, at) && self.goes_on(next, next)).then_some(other)
    }

    /// Appends the note of what befell the frames at the first that differs, and says whether there is one: one thing has to
    /// explain all that was received behind it.
    pub(crate) fn put_befallen(&self, text: &mut NoteText, first: usize) -> bool {
        let sender = u64::from(self.sent.log.vat());
        let receiver = u64::from(self.received.log.vat());
        let (next, before) = (first.saturating_add(1), first.saturating_sub(1));
        let number = first as u64;
        if let Some(other) = self.exchanged_with(first) {
            let sentence = "messages # and # of vat # are exchanged at vat #";
            text.note(sentence, &[number, other as u64, sender, receiver]);
        } else if self.is_same(first, next) && self.goes_on(first, next) {
            let sentence = "message # of vat # is missing at vat #; the rest comes one earlier";
            text.note(sentence, &[number, sender, receiver]);
        } else if !self.is_same(next, first) || !self.goes_on(next, first) {
            return false;
        } else if first > 0 && self.is_same(first, before) {
            let sentence = "message # of vat # came twice at vat #; the rest comes one later";
            text.note(sentence, &[before as u64, sender, receiver]);
        } else {
            let sentence =
                "message # that vat # received is one more than vat # sent; the rest comes one later";
            text.note(sentence, &[number, receiver, sender]);
        }
        true
    }
}
