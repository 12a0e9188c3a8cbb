//! What a message lacks of the numbers that it names.

use crate::end_tables::Question;
use crate::vat::end_files::EndFiles;
use crate::vat::end_numbers::EndNumbers;
use wire_cut::Lack;
use wire_plan::{Aim, Entry, Planned, PlannedCall};

impl EndNumbers {
    /// Bootstrap, Call: its question is free.
    pub(crate) fn lack_of_opening(&self, number: u32) -> Option<Lack> {
        let question = self.question(number)?;
        (!question.is_free()).then_some(Lack::QuestionFree(number))
    }

    /// A target: the import is held, or the own question is opened and not finished.
    pub(crate) fn lack_of_aim(&self, aim: Aim) -> Option<Lack> {
        match aim {
            Aim::Import(number) if self.import_count(number) == 0 => Some(Lack::ImportHeld(number)),
            Aim::Answer(question, _) if self.unfinished_question(question).is_none() => {
                Some(Lack::OwnQuestion(question))
            }
            _ => None,
        }
    }

    /// A number is introduced: it is out of life, or in life, of the same kind, without a Resolve.
    fn lack_of_export(&self, number: u32, is_promise: bool) -> Option<Lack> {
        let held = self.held_export(number)?;
        (held.is_promise != is_promise || held.is_resolved).then_some(Lack::ExportFree(number))
    }

    /// What is needed of an entry of a table.
    fn lack_of_entry(&self, entry: Entry, is_late: bool) -> Option<Lack> {
        match entry {
            Entry::Hosted(number) if !is_late => self.lack_of_export(number, false),
            Entry::Promised(number, _) if !is_late => self.lack_of_export(number, true),
            Entry::NoCap | Entry::Hosted(_) | Entry::Promised(_, _) => None,
            Entry::Receivers(aim) => self.lack_of_aim(aim),
        }
    }

    /// What is needed of a table.
    fn lack_of_table(&self, entries: &[Entry], is_late: bool) -> Option<Lack> {
        entries
            .iter()
            .find_map(|entry| self.lack_of_entry(*entry, is_late))
    }

    /// Call: its question is free, and its target and what its table names are there.
    pub(crate) fn lack_of_call(&self, call: PlannedCall, table: &[Entry]) -> Option<Lack> {
        self.lack_of_opening(call.question)
            .or_else(|| self.lack_of_aim(call.aim))
            .or_else(|| self.lack_of_table(table, false))
    }

    /// Finish: the own question without one, and what its Return introduced is held.
    pub(crate) fn lack_of_finish(
        &mut self,
        files: EndFiles<'_>,
        number: u32,
        release: bool,
    ) -> Option<Lack> {
        let Some(question) = self.unfinished_question(number) else {
            return Some(Lack::OwnQuestion(number));
        };
        let answer = files.peer_message(question.given_back(release)?)?;
        self.not_held(&answer.table)
    }

    /// Resolve: the export is held, a promise, and had none.
    pub(crate) fn lack_of_resolve(&self, number: u32, message: &Planned) -> Option<Lack> {
        match self.held_export(number) {
            Some(held) if held.is_promise && !held.is_resolved => {
                self.lack_of_table(&message.table, false)
            }
            _ => Some(Lack::PromiseOpen(number)),
        }
    }

    /// Release: the import is held so often.
    pub(crate) fn lack_of_release(&self, number: u32, count: u64) -> Option<Lack> {
        if self.import_count(number) < count {
            return Some(Lack::ImportHeldOften(number, count));
        }
        self.lack_of_aim(Aim::Import(number))
    }

    /// Return: what it gives back is held, and what its table names is there.
    pub(crate) fn lack_of_answer(
        &mut self,
        files: EndFiles<'_>,
        question: Question,
        release: bool,
        table: &[Entry],
    ) -> Option<Lack> {
        if release {
            if let Some(opening) = files.peer_message(question.opening) {
                if let Some(lack) = self.not_held(&opening.table) {
                    return Some(lack);
                }
            }
        }
        self.lack_of_table(table, question.is_released)
    }
}
