//! Which frames belong together, and which results are named.

use crate::keyed_lists::KeyedLists;
use crate::message::{Aim, Entry, Planned, ReturnKind};
use std::alloc::{AllocError, Global};

/// The ties of one end's frames.
#[derive(Drop)]
pub struct Ties {
    /// The frames that open each question, in their order.
    openings: KeyedLists<u32, usize>,
    /// The paths that are named of the results of the question that each frame opens.
    named: KeyedLists<usize, u32>,
    /// Of an opening its Return, of a Return its opening: a frame of the other end.
    pairs: Vec<Option<usize>>,
    /// Of a Call with sendResultsTo yourself the Return that takes its results, of such a Return that Call: a frame of
    /// the same end.
    takes: Vec<Option<usize>>,
}

impl Ties {
    /// So many frames without ties.
    fn new(alloc: Global, frames: usize) -> Result<Ties, AllocError> {
        Ok(Ties {
            openings: KeyedLists::new(alloc),
            named: KeyedLists::new(alloc),
            pairs: vec![in alloc; None; frames]?,
            takes: vec![in alloc; None; frames]?,
        })
    }

    /// The ties of messages among each other.
    pub(crate) fn of(alloc: Global, messages: &[Planned]) -> Result<Ties, AllocError> {
        let mut ties = Ties::new(alloc, messages.len())?;
        for (place, message) in messages.iter().enumerate() {
            ties.look(alloc, place, message)?;
        }
        Ok(ties)
    }

    /// What the message at this place is meant for, or what it names, is a result.
    fn name(&mut self, alloc: Global, place: usize, aim: Aim) -> Result<(), AllocError> {
        if let Aim::Answer(question, path) = aim {
            if let Some(opening) = self.opening_before(question, place) {
                return self.named.put_once(alloc, opening, path);
            }
        }
        Ok(())
    }

    /// The Return takes the results of the Call, if no Return before it does.
    fn take(&mut self, answer: usize, call: usize) {
        if self.take_of(call).is_none() {
            tie(&mut self.takes, call, answer);
            tie(&mut self.takes, answer, call);
        }
    }

    /// Looks at the message at this place, behind those before it.
    fn look(&mut self, alloc: Global, place: usize, message: &Planned) -> Result<(), AllocError> {
        if let Some(aim) = message.aim() {
            self.name(alloc, place, aim)?;
        }
        for entry in &message.table {
            if let Entry::Receivers(aim) = entry {
                self.name(alloc, place, *aim)?;
            }
        }
        if let Some(question) = message.opens() {
            self.openings.put(alloc, question, place)?;
        }
        if let Some(ReturnKind::TakenFrom(question)) = message.results() {
            if let Some(call) = self.opening_before(question, place) {
                self.take(place, call);
            }
        }
        Ok(())
    }

    /// The frame belongs to that one of the other end.
    pub(crate) fn pair(&mut self, frame: usize, other: usize) {
        tie(&mut self.pairs, frame, other);
    }

    /// The frames that open this question, in their order.
    pub(crate) fn openings(&self, question: u32) -> &[usize] {
        self.openings.of(question)
    }

    /// The last frame before this place that opens this question.
    pub(crate) fn opening_before(&self, question: u32, place: usize) -> Option<usize> {
        let openings = self.openings.of(question);
        let before = openings.partition_point(|opening| *opening < place);
        openings.get(before.checked_sub(1)?).copied()
    }

    /// The other end's frame to which this one belongs.
    pub fn pair_of(&self, frame: usize) -> Option<usize> {
        self.pairs.get(frame).copied().unwrap_or(None)
    }

    /// The frame of the same end to which this one belongs.
    pub fn take_of(&self, frame: usize) -> Option<usize> {
        self.takes.get(frame).copied().unwrap_or(None)
    }

    /// The paths that are named of the question that this frame opens.
    pub fn named(&self, opening: usize) -> &[u32] {
        self.named.of(opening)
    }
}

/// A frame belongs to another one.
fn tie(ties: &mut [Option<usize>], frame: usize, other: usize) {
    if let Some(tie) = ties.get_mut(frame) {
        *tie = Some(other);
    }
}
