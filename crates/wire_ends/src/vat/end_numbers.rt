//! What an end's questions, exports, imports and promises are by their numbers.

use crate::end_tables::{Held, Life, Question};
use crate::vat::end_notes::next_reference;
use crate::vat::views::{EndView, NextView};
use rising_table::RisingTable;
use std::alloc::{AllocError, Global};
use wire_cut::Lack;
use wire_plan::{Aim, Entry, FilePlan, PlannedReturn};

/// Gives back a number so often.
pub(crate) fn give_back(table: &mut RisingTable<Held>, number: u32, count: u64) {
    if let Some(held) = table.get_mut(u64::from(number)) {
        held.count = held.count.saturating_sub(count);
    }
}

/// Gives back what a table introduced.
fn give_back_all(table: &mut RisingTable<Held>, entries: &[Entry]) {
    for entry in entries {
        if let Some(number) = entry.introduced() {
            give_back(table, number, 1);
        }
    }
}

/// Undoes [`give_back_all`], where each of these was held.
fn take_again(table: &mut RisingTable<Held>, entries: &[Entry]) {
    for entry in entries {
        if let Some(number) = entry.introduced() {
            if let Some(held) = table.get_mut(u64::from(number)) {
                held.count = held.count.saturating_add(1);
            }
        }
    }
}

/// A number is introduced once more in its life. Whether it is in one.
pub(crate) fn hold(table: &mut RisingTable<Held>, number: u32) -> bool {
    match table.get_mut(u64::from(number)) {
        Some(held) if held.count > 0 => {
            held.count = held.count.saturating_add(1);
            true
        }
        _ => false,
    }
}

/// A number's life begins.
pub(crate) fn begin(
    table: &mut RisingTable<Held>,
    number: u32,
    is_promise: bool,
    view: EndView,
) -> Result<(), AllocError> {
    let held = Held {
        count: 1,
        is_promise,
        is_resolved: false,
        view,
    };
    table.put(u64::from(number), held)
}

/// A question has its Return, the message at this place. Where that says so, what the question's opening introduced, a message
/// of this file, is given back.
pub(crate) fn put_return(
    questions: &mut RisingTable<Question>,
    held: &mut RisingTable<Held>,
    asker: &FilePlan,
    place: usize,
    said: PlannedReturn,
) {
    let Some(question) = questions.get_mut(u64::from(said.answer)) else {
        return;
    };
    question.put_return(place, said.light);
    if said.release {
        if let Some(opening) = asker.messages.get(question.opening) {
            give_back_all(held, &opening.table);
        }
    }
}

/// A question has its Finish. Where that says so, what the question's Return introduced, a message of this file, is given back.
pub(crate) fn put_finish(
    questions: &mut RisingTable<Question>,
    held: &mut RisingTable<Held>,
    answerer: &FilePlan,
    number: u32,
    release: bool,
) {
    let Some(question) = questions.get_mut(u64::from(number)) else {
        return;
    };
    if let Some(place) = question.given_back(release) {
        if let Some(answer) = answerer.messages.get(place) {
            give_back_all(held, &answer.table);
        }
    }
    question.put_finish(release);
}

/// Questions, exports, imports and groups of promises by their numbers.
#[derive(Drop)]
pub(crate) struct EndNumbers {
    /// Own questions.
    pub questions: RisingTable<Question>,
    /// The peer's questions.
    pub answers: RisingTable<Question>,
    pub exports: RisingTable<Held>,
    pub imports: RisingTable<Held>,
    /// The objects that are hosted under the numbers of others: of each number the last.
    objects: RisingTable<u64>,
    /// The promises of the file's groups: a reference and what that stands for.
    pub group_promises: RisingTable<(u64, EndView)>,
    /// What groups stand for that aren't promises of this end, but what it passes on while it is open.
    pub passed_groups: RisingTable<(u64, EndView)>,
}

impl EndNumbers {
    /// No numbers.
    pub(crate) fn new(alloc: Global) -> EndNumbers {
        EndNumbers {
            questions: RisingTable::new(alloc),
            answers: RisingTable::new(alloc),
            exports: RisingTable::new(alloc),
            imports: RisingTable::new(alloc),
            objects: RisingTable::new(alloc),
            group_promises: RisingTable::new(alloc),
            passed_groups: RisingTable::new(alloc),
        }
    }

    /// An own question.
    pub(crate) fn question(&self, number: u32) -> Option<Question> {
        self.questions.get(u64::from(number)).copied()
    }

    /// An own question that isn't finished.
    pub(crate) fn unfinished_question(&self, number: u32) -> Option<Question> {
        let question = self.question(number);
        question.filter(|question| !question.is_finished)
    }

    /// A question of the peer.
    pub(crate) fn answer(&self, number: u32) -> Option<Question> {
        self.answers.get(u64::from(number)).copied()
    }

    /// A question of the peer that has no Return.
    pub(crate) fn unanswered(&self, number: u32) -> Option<Question> {
        let question = self.answer(number);
        question.filter(|question| question.answer.is_none())
    }

    /// An import, held or not.
    pub(crate) fn import(&self, number: u32) -> Option<Held> {
        self.imports.get(u64::from(number)).copied()
    }

    /// How often an import is held.
    pub(crate) fn import_count(&self, number: u32) -> u64 {
        self.import(number).map_or(0, |held| held.count)
    }

    /// An export that is held.
    pub(crate) fn held_export(&self, number: u32) -> Option<Held> {
        let held = self.exports.get(u64::from(number)).copied();
        held.filter(|held| held.count > 0)
    }

    /// The object that is hosted under a number: that of this number, or another one that got it.
    pub(crate) fn object_of(&self, number: u32) -> u64 {
        let own = u64::from(number);
        self.objects.get(own).copied().unwrap_or(own)
    }

    /// An object gets a number, if that isn't in life. Whether it has it then.
    pub(crate) fn give_number(&mut self, object: u64, number: u32) -> Result<bool, AllocError> {
        if self.held_export(number).is_some() {
            return Ok(false);
        }
        self.objects.put(u64::from(number), object)?;
        Ok(true)
    }

    /// What the target of an own message stands for.
    pub(crate) fn view_of_own(&self, aim: Aim) -> Option<EndView> {
        match aim {
            Aim::Import(number) => Some(self.import(number)?.view),
            Aim::Answer(question, path) => Some(EndView::Field(
                self.question(question)?.call,
                path,
            )),
        }
    }

    /// What the target of a received message stands for.
    pub(crate) fn view_of_peers(&self, aim: Aim) -> Option<EndView> {
        match aim {
            Aim::Import(number) => Some(self.held_export(number)?.view),
            Aim::Answer(question, path) => Some(EndView::Field(self.answer(question)?.call, path)),
        }
    }

    /// The promise of a group, if it was made, or what it passes on: its reference and what that stands for.
    pub(crate) fn made_promise(&self, group: usize) -> Option<(u64, EndView)> {
        let passed = self.passed_groups.get(group as u64);
        passed.or(self.group_promises.get(group as u64)).copied()
    }

    /// What a number stands for that is no promise of this end, but what it passes on while it is open.
    pub(crate) fn passed_view(&self, group: Option<usize>) -> Option<EndView> {
        let (_, view) = self.passed_groups.get(group? as u64)?;
        Some(*view)
    }

    /// What an entry of an own table stands for where it goes out, if that is there.
    pub(crate) fn view_of_entry(&self, entry: Entry) -> Option<EndView> {
        let number = entry.introduced();
        if let Some(held) = number.and_then(|number| self.held_export(number)) {
            return Some(held.view);
        }
        match entry {
            Entry::NoCap => None,
            Entry::Hosted(number) => Some(EndView::Object(self.object_of(number))),
            Entry::Promised(_, group) => Some(self.made_promise(group)?.1),
            Entry::Receivers(aim) if self.lack_of_aim(aim).is_some() => None,
            Entry::Receivers(aim) => self.view_of_own(aim),
        }
    }

    /// What an entry of a received table stands for.
    pub(crate) fn view_of_received(&self, entry: Entry) -> Option<EndView> {
        match entry {
            Entry::NoCap => None,
            Entry::Hosted(number) | Entry::Promised(number, _) => Some(self.import(number)?.view),
            Entry::Receivers(aim) => self.view_of_peers(aim),
        }
    }

    /// Whether an entry can't be told yet: it goes out as something of the peer's, and either not now or as nothing.
    pub(crate) fn is_too_early(&self, entry: Entry, is_now: bool) -> bool {
        matches!(entry, Entry::Receivers(_)) && (!is_now || self.view_of_entry(entry).is_none())
    }

    /// An import comes in under this reference: a promise, where it belongs to a group of the peer's.
    fn take_in(
        &mut self,
        lives: &mut Vec<Life>,
        number: u32,
        group: Option<usize>,
        reference: u64,
    ) -> Result<(), AllocError> {
        if hold(&mut self.imports, number) {
            return Ok(());
        }
        let view = EndView::Import(lives.len());
        lives.push(Life {
            reference,
            turn: NextView::Stays,
            group,
        })?;
        begin(&mut self.imports, number, group.is_some(), view)
    }

    /// A table comes in: a new reference for each entry but none, in its order; imports are introduced.
    pub(crate) fn take_in_all(
        &mut self,
        alloc: Global,
        lives: &mut Vec<Life>,
        made: &mut u64,
        entries: &[Entry],
    ) -> Result<Vec<u64>, AllocError> {
        let mut references = Vec::new(alloc);
        for entry in entries {
            if *entry == Entry::NoCap {
                continue;
            }
            let reference = next_reference(made);
            references.push(reference)?;
            match entry {
                Entry::Hosted(number) => self.take_in(lives, *number, None, reference)?,
                Entry::Promised(number, group) => {
                    self.take_in(lives, *number, Some(*group), reference)?
                }
                _ => {}
            }
        }
        Ok(references)
    }

    /// The first import that these entries introduced more often than it is held.
    pub(crate) fn not_held(&mut self, entries: &[Entry]) -> Option<Lack> {
        let mut lacking = None;
        let mut given = 0usize;
        for entry in entries {
            if let Some(number) = entry.introduced() {
                if self.import_count(number) == 0 {
                    lacking = Some(Lack::ImportHeld(number));
                    break;
                }
                give_back(&mut self.imports, number, 1);
            }
            given = given.saturating_add(1);
        }
        let (tried, _) = entries.split_at(given.min(entries.len()));
        take_again(&mut self.imports, tried);
        lacking
    }

    /// The results of an own question are taken.
    pub(crate) fn take_results(&mut self, number: u32) {
        if let Some(question) = self.questions.get_mut(u64::from(number)) {
            question.is_taken = true;
        }
    }

    /// An export has its Resolve.
    pub(crate) fn resolve_export(&mut self, number: u32) {
        if let Some(held) = self.exports.get_mut(u64::from(number)) {
            held.is_resolved = true;
        }
    }

    /// An import that waits for a Resolve has it. Whether it did, and what it stands for.
    pub(crate) fn resolve_import(&mut self, number: u32, held: Held) -> Option<EndView> {
        if held.count == 0 || !held.is_promise || held.is_resolved {
            return None;
        }
        let resolved = Held {
            is_resolved: true,
            ..held
        };
        let _ = self.imports.replace(u64::from(number), resolved);
        Some(held.view)
    }
}
