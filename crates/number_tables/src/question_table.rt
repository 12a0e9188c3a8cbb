//! The table of questions.

ghost use Rattle.std.specs.Prelude.{◌≡◌, None, OnOk, OnErr, if◌then◌else◌};
ghost use Rattle.std.specs.Option.{option_copied};
ghost use Rattle.decoded_records.specs.declared.table_key.TableKey.{TableKey};
ghost use Rattle.number_tables.specs.Glue.QuestionTables.{question_at, params_introduced_in, results_introduced_in, with_return, with_light_return, with_finish, with_release, with_taken, IsPut, IsSameQuestions, IsChanged};

use crate::by_connection::ByConnection;
use crate::question::QuestionState;
use decoded_records::{TableKey, TableKeys};
use std::alloc::{AllocError, Global};

/// What is known of each question that was opened.
#[derive(Drop)]
pub struct Questions {
    entries: ByConnection<QuestionState>,
}

impl Questions {
    /// Before any is opened.
    pub fn new(alloc: Global) -> Questions
        ensures { (q : TableKey) → question_at result q ≡ None }
    {
        Questions {
            entries: ByConnection::new(alloc),
        }
    }

    /// What is known of this question, if it was opened.
    #[inline]
    pub(crate) fn of(&self, question: TableKey) -> Option<&QuestionState>
        ensures { option_copied result ≡ question_at self.now question }
    {
        self.entries.get(question)
    }

    /// What this question's opening introduced.
    pub(crate) fn asked_in(&self, question: TableKey) -> &[TableKey]
        ensures { result.now ≡ params_introduced_in (question_at self.now question) }
    {
        match self.of(question) {
            Some(known) => known.asked.as_slice(),
            None => &[],
        }
    }

    /// What this question's Return introduced.
    pub(crate) fn brought_in(&self, question: TableKey) -> &[TableKey]
        ensures { result.now ≡ results_introduced_in (question_at self.now question) }
    {
        match self.of(question) {
            Some(known) => known.brought.as_slice(),
            None => &[],
        }
    }

    /// This question was opened. Where memory is refused, nothing changes.
    pub fn open(&mut self, question: TableKey, opened: QuestionState) -> Result<(), AllocError>
        ensures ok { OnOk result (IsPut question opened self.old self.new) }
        ensures err { OnErr result (IsSameQuestions self.old self.new) }
    {
        self.entries.put(question, opened)
    }

    /// This question was returned, and its Return introduced these numbers. A light one says that no Finish is needed.
    pub fn note_return(&mut self, question: TableKey, light: bool, brought: TableKeys)
        ensures { IsChanged question
            (λ known. if light then with_light_return (with_return brought known)
            else with_return brought known) self.old self.new }
    {
        if let Some(known) = self.entries.get_mut(question) {
            known.returned = true;
            known.returned_lightly = known.returned_lightly || light;
            known.brought = brought;
        }
    }

    /// This question was finished, and its results were given back or not.
    pub fn note_finish(&mut self, question: TableKey, released: bool)
        ensures { IsChanged question
            (λ known. if released then with_release (with_finish known) else with_finish known)
            self.old self.new }
    {
        if let Some(known) = self.entries.get_mut(question) {
            known.finished = true;
            known.released = known.released || released;
        }
    }

    /// This question's results were taken.
    pub fn note_taken(&mut self, question: TableKey)
        ensures { IsChanged question with_taken self.old self.new }
    {
        if let Some(known) = self.entries.get_mut(question) {
            known.taken = true;
        }
    }
}
