//! Whether a record that may be applied next names and uses things as it should.

ghost use Rattle.std.specs.Prelude.{◌≡◌, ◌&&◌, not, count_by, Decides};
ghost use Rattle.std.specs.List.{list_all};
ghost use Rattle.decoded_records.specs.Questions.{question_returned, question_taken, opening, is_tail, is_taken, is_unfinished, is_unreturned};
ghost use Rattle.decoded_records.specs.Lives.{descriptors, is_in_life};
ghost use Rattle.decoded_records.specs.Uses.{question_described, questions_used, number_described, OpensFree, UsesQuestions, UsesNumbers};
ghost use Rattle.decoded_records.specs.Glue.Origins.{is_cap};
ghost use Rattle.decoded_records.specs.Bindings.{NotesEach};
ghost use Rattle.vat_view.specs.Glue.Asking.{passes_if};

use crate::state::VatState;
use decoded_records::{DecodedRecord, TableKey, has_message, is_cap};

/// Whether three tests all hold; a function of its own, so that the proof sees one `&&`.
pub(crate) fn all_three(first: bool, second: bool, third: bool) -> bool
    ensures { result ≡ ((first && second) && third) }
{
    first && second && third
}

/// Whether two tests both hold; a function of its own for the same reason.
pub(crate) fn both(first: bool, second: bool) -> bool
    ensures { result ≡ (first && second) }
{
    first && second
}

/// Whether a question, if there is one, is opened and not finished.
fn is_unfinished(state: &VatState, question: Option<TableKey>) -> bool
    ensures { result ≡ passes_if (λ q. is_unfinished q state.now) question }
{
    match question {
        Some(question) => state.is_unfinished(question),
        None => true,
    }
}

/// Whether every question that a record's descriptors name is opened and not finished.
fn describes_unfinished(state: &VatState, event: &DecodedRecord) -> bool
    ensures { result ≡ list_all
        (λ d. passes_if (λ q. is_unfinished q state.now) (question_described event.now d))
        (descriptors event.now) }
{
    event.descriptors().iter().all(|descriptor| is_unfinished(
        state,
        event.question_described(descriptor),
    ))
}

/// Whether every question that a record uses is opened and not finished.
fn uses_unfinished(state: &VatState, event: &DecodedRecord) -> bool
    ensures { result ≡ list_all (λ q. is_unfinished q state.now) (questions_used event.now) }
{
    let mentioned = all_three(
        is_unfinished(state, event.question_targeted()),
        describes_unfinished(state, event),
        is_unfinished(state, event.question_finished()),
    );
    both(mentioned, is_unfinished(state, event.question_taken()))
}

/// Whether the question that a record returns, if there is one, is opened and not returned.
fn returns_once(state: &VatState, event: &DecodedRecord) -> bool
    ensures { result ≡ passes_if (λ q. is_unreturned q state.now) (question_returned event.now) }
{
    match event.question_returned() {
        Some(question) => state.is_unreturned(question),
        None => true,
    }
}

/// Whether the question whose results a record takes, if there is one, was opened by a Call whose results are to be
/// sent elsewhere, and they weren't taken since.
fn takes_once(state: &VatState, event: &DecodedRecord) -> bool
    ensures { result ≡ passes_if
        (λ q. is_tail (opening q state.now) && not (is_taken q state.now))
        (question_taken event.now) }
{
    match event.question_taken() {
        Some(question) => state.is_tail(question) && !state.is_taken(question),
        None => true,
    }
}

/// Whether a number, if there is one, is in life.
fn is_in_life(state: &VatState, number: Option<TableKey>) -> bool
    ensures { result ≡ passes_if (λ i. is_in_life i state.now) number }
{
    match number {
        Some(number) => state.is_in_life(number),
        None => true,
    }
}

/// Whether every number that a record's descriptors use is in life.
fn describes_in_life(state: &VatState, event: &DecodedRecord) -> bool
    ensures { result ≡ list_all
        (λ d. passes_if (λ i. is_in_life i state.now) (number_described event.now d))
        (descriptors event.now) }
{
    event.descriptors().iter().all(|descriptor| is_in_life(
        state,
        event.number_described(descriptor),
    ))
}

/// What a message uses, as a record that may be applied next.
impl VatState {
    /// Whether each question that it uses is opened and not finished, one that it returns is opened and not returned,
    /// and one whose results it takes was opened by a Call whose results are to be sent elsewhere, and they weren't
    /// taken since.
    fn message_uses_questions(&self, event: &DecodedRecord) -> bool
        ensures { Decides result (UsesQuestions self.now event.now) }
    {
        all_three(
            returns_once(self, event),
            takes_once(self, event),
            uses_unfinished(self, event),
        )
    }

    /// Whether each export or import number that it uses is in life.
    fn message_uses_numbers(&self, event: &DecodedRecord) -> bool
        ensures { Decides result (UsesNumbers self.now event.now) }
    {
        all_three(
            is_in_life(self, event.number_targeted()),
            describes_in_life(self, event),
            is_in_life(self, event.number_released()),
        )
    }
}

/// What a record that may be applied next names and uses. One without a message uses nothing.
impl VatState {
    /// Whether a question number that it opens is free (rpc.capnp, `Call.questionId` and `Return.noFinishNeeded`).
    pub fn opens_free(&self, event: &DecodedRecord) -> bool
        ensures { Decides result (OpensFree self.now event.now) }
    {
        match event.question_opened() {
            Some(question) => self.is_free(question),
            None => true,
        }
    }

    /// Whether each question that it uses is opened and not finished, one that it returns is opened and not returned,
    /// and one whose results it takes was opened by a Call whose results are to be sent elsewhere, and they weren't
    /// taken since (rpc.capnp, `Return.answerId`, `Return.takeFromOtherQuestion`, `Finish.questionId` and
    /// `PromisedAnswer.questionId`).
    pub fn uses_questions(&self, event: &DecodedRecord) -> bool
        ensures { Decides result (UsesQuestions self.now event.now) }
    {
        if !has_message(event) {
            return true;
        }
        self.message_uses_questions(event)
    }

    /// Whether each export or import number that it uses is in life (rpc.capnp, `MessageTarget.importedCap`,
    /// `CapDescriptor.receiverHosted` and `Release.id`).
    pub fn uses_numbers(&self, event: &DecodedRecord) -> bool
        ensures { Decides result (UsesNumbers self.now event.now) }
    {
        if !has_message(event) {
            return true;
        }
        self.message_uses_numbers(event)
    }

    /// Whether one reference is noted beside it for each descriptor that isn't none, and none beside a late Return.
    #[inline]
    pub fn notes_each(&self, event: &DecodedRecord) -> bool
        ensures { Decides result (NotesEach self.now event.now) }
    {
        if self.is_late(event) {
            event.references().is_empty()
        } else {
            event.references().len() == caps(event)
        }
    }
}

/// How many descriptors of a record aren't none.
fn caps(event: &DecodedRecord) -> usize
    ensures { result ≡ count_by is_cap (descriptors event.now) }
{
    event
        .descriptors()
        .iter()
        .filter(|descriptor| is_cap(descriptor))
        .count()
}
