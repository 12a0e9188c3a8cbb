//! Calls that one end's file leads back to the end that sent them.

use crate::keyed_lists::KeyedLists;
use crate::message::{Aim, Entry, Kind, PlannedCall, ReturnKind};
use crate::plan::FilePlan;
use std::alloc::{AllocError, Global};

/// How many promises may become one another.
const MAX_STEPS: usize = 64;

/// The Calls of one end, by their places, that the other end's file leads back: by their digest and by the target of the
/// other end's to which they lead.
pub(crate) type Passing = KeyedLists<(u64, Aim), usize>;

/// What something becomes of the other end's.
#[derive(Clone, Copy)]
struct Lead {
    /// What it becomes.
    aim: Aim,
    /// The message that names this.
    place: usize,
}

/// One end's file, as it leads to what is the other end's.
#[derive(Clone, Copy)]
struct Leading<'a> {
    alloc: Global,
    own: &'a FilePlan,
    peer: &'a FilePlan,
}

impl Leading<'_> {
    /// What an entry of the own message at this place becomes, by the Resolves.
    fn entry_lead(&self, place: usize, entry: Entry) -> Option<Lead> {
        let mut place = place;
        let mut entry = entry;
        for _ in 0..MAX_STEPS {
            match entry {
                Entry::NoCap | Entry::Hosted(_) => return None,
                Entry::Receivers(aim) => return Some(Lead { aim, place }),
                Entry::Promised(_, group) => {
                    place = self.own.groups.resolve(group)?;
                    entry = self.own.messages.get(place)?.entry(0)?;
                }
            }
        }
        None
    }

    /// What a result of the other end's question becomes: what stands at a path of the Return that answers the question
    /// for which the other end's message at this place is meant.
    fn result_lead(&self, place: usize, question: u32, path: u32) -> Option<Lead> {
        let opening = self.peer.ties.opening_before(question, place)?;
        let place = self.peer.ties.pair_of(opening)?;
        let answer = self.own.messages.get(place)?;
        match answer.results()? {
            ReturnKind::TakenFrom(question) => Some(Lead {
                aim: Aim::Answer(question, path),
                place,
            }),
            _ => self.entry_lead(place, answer.entry_at(path)?),
        }
    }

    /// Where a lead goes on that ends at a result of an own question: to the number of the other end's under which it is
    /// returned.
    fn returned_number(&self, lead: Lead) -> Option<Aim> {
        let Aim::Answer(question, path) = lead.aim else {
            return None;
        };
        let opening = self.own.ties.opening_before(question, lead.place)?;
        let answer = self.peer.messages.get(self.own.ties.pair_of(opening)?)?;
        Some(Aim::Import(answer.entry_at(path)?.introduced()?))
    }

    /// What the own promises become, by their numbers.
    fn promises(&self) -> Result<KeyedLists<u32, Aim>, AllocError> {
        let mut becoming = KeyedLists::new(self.alloc);
        for (place, message) in self.own.messages.iter().enumerate() {
            let (Kind::Resolve(number, _), Some(entry)) = (message.kind, message.entry(0)) else {
                continue;
            };
            if let Some(lead) = self.entry_lead(place, entry) {
                becoming.put_once(self.alloc, number, lead.aim)?;
                if let Some(aim) = self.returned_number(lead) {
                    becoming.put_once(self.alloc, number, aim)?;
                }
            }
        }
        Ok(becoming)
    }

    /// Takes in the other end's Call at this place, if the own file leads it back; the own promises become these.
    fn pass(
        &self,
        promises: &KeyedLists<u32, Aim>,
        place: usize,
        call: PlannedCall,
        passing: &mut Passing,
    ) -> Result<(), AllocError> {
        match call.aim {
            Aim::Import(number) => {
                for target in promises.of(number) {
                    passing.put(self.alloc, (call.digest, *target), place)?;
                }
            }
            Aim::Answer(question, path) => {
                if let Some(lead) = self.result_lead(place, question, path) {
                    passing.put(self.alloc, (call.digest, lead.aim), place)?;
                    if let Some(number) = self.returned_number(lead) {
                        passing.put(self.alloc, (call.digest, number), place)?;
                    }
                }
            }
        }
        Ok(())
    }
}

/// The other end's Calls that one end's file leads back.
pub(crate) fn led_back(
    alloc: Global,
    own: &FilePlan,
    peer: &FilePlan,
) -> Result<Passing, AllocError> {
    let leading = Leading { alloc, own, peer };
    let promises = leading.promises()?;
    let mut passing = KeyedLists::new(alloc);
    for (place, message) in peer.messages.iter().enumerate() {
        if let Kind::Call(call) = message.kind {
            leading.pass(&promises, place, call, &mut passing)?;
        }
    }
    Ok(passing)
}
