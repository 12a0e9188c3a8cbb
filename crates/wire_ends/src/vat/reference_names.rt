//! References: what stands for what goes out.

use crate::end_tables::{Becomes, Promise};
use crate::vat::Vat;
use crate::vat::views::{EndView, NextView};
use std::alloc::AllocError;
use wire_plan::{Aim, Entry};

impl Vat<'_> {
    /// A new promise: its reference and what that stands for.
    pub(crate) fn new_promise(&mut self, becomes: Becomes) -> Result<(u64, EndView), AllocError> {
        let reference = self.notes.new_vow()?;
        self.turns.new_promise(Promise {
            reference,
            turn: NextView::Stays,
            becomes,
        })
    }

    /// The promise of a group.
    pub(crate) fn promised(&mut self, group: usize) -> Result<(u64, EndView), AllocError> {
        if let Some(made) = self.numbers.made_promise(group) {
            return Ok(made);
        }
        let becomes = self.files.group_becomes(group);
        let made = self.new_promise(becomes)?;
        self.numbers.group_promises.put(group as u64, made)?;
        Ok(made)
    }

    /// The reference of what stands at a path of a call's results.
    fn field(&mut self, call: usize, path: u32) -> Result<u64, AllocError> {
        if let Some(reference) = self.notes.field(call, path) {
            return Ok(reference);
        }
        let fields = self.files.plan.paths.path(self.alloc, path)?;
        self.notes.new_field(call, path, fields)
    }

    /// What may still be open goes out as the promise of a group, if that stands for nothing yet. Whether it does then.
    pub(crate) fn pass_group(&mut self, view: EndView, group: usize) -> Result<bool, AllocError> {
        if self.numbers.made_promise(group).is_some() {
            return Ok(false);
        }
        let reference = match view {
            EndView::Field(call, path) => Some(self.field(call, path)?),
            _ => self.turns.reference_of(view),
        };
        if let Some(reference) = reference {
            let named = (reference, view);
            self.numbers.passed_groups.put(group as u64, named)?;
        }
        Ok(reference.is_some())
    }

    /// The import of a number, in its last life: the reference with which that began. An object where there was none.
    fn imported(&mut self, number: u32) -> Result<(u64, EndView), AllocError> {
        if let Some(held) = self.numbers.import(number) {
            if let Some(reference) = self.turns.reference_of(held.view) {
                return Ok((reference, held.view));
            }
        }
        self.notes.new_object()
    }

    /// What stands at a path of an own question's results. An object where there was no such question.
    fn asked(&mut self, question: u32, path: u32) -> Result<(u64, EndView), AllocError> {
        match self.numbers.question(question) {
            Some(question) => Ok((
                self.field(question.call, path)?,
                EndView::Field(question.call, path),
            )),
            None => self.notes.new_object(),
        }
    }

    /// What an entry of an own table stands for, and its reference. An object where the entry has no capability.
    pub(crate) fn named(&mut self, entry: Entry) -> Result<(u64, EndView), AllocError> {
        match entry {
            Entry::NoCap => self.notes.new_object(),
            Entry::Hosted(number) => {
                let object = self.numbers.object_of(number);
                Ok((self.notes.hosted(object)?, EndView::Object(object)))
            }
            Entry::Promised(_, group) => self.promised(group),
            Entry::Receivers(aim) => self.aimed(aim),
        }
    }

    /// What the target of an own message stands for, and its reference.
    pub(crate) fn aimed(&mut self, aim: Aim) -> Result<(u64, EndView), AllocError> {
        match aim {
            Aim::Import(number) => self.imported(number),
            Aim::Answer(question, path) => self.asked(question, path),
        }
    }

    /// The references of an own table, without those of entries that are none.
    pub(crate) fn references_of(&mut self, table: &[Entry]) -> Result<Vec<u64>, AllocError> {
        let mut references = Vec::new(self.alloc);
        for entry in table {
            if *entry != Entry::NoCap {
                references.push(self.named(*entry)?.0)?;
            }
        }
        Ok(references)
    }
}
