//! What can be asked of questions.

ghost use Rattle.std.specs.Prelude.{◌≡◌, ◌<◌};
ghost use Rattle.decoded_records.specs.Questions.{is_free, is_unfinished, is_finished, is_unreturned, is_tail, is_taken, call_at, call_of, opening, is_late};

use crate::state::VatState;
use decoded_records::{DecodedRecord, TableKey};

/// What can be asked of questions before a record is applied.
impl VatState {
    /// Whether a question's number is free, to be opened: it was never opened, or since its last opening both its Return
    /// and its Finish have passed, or a Return that says that no Finish is needed (rpc.capnp, `Call.questionId` and
    /// `Return.noFinishNeeded`).
    pub(crate) fn is_free(&self, question: TableKey) -> bool
        ensures { result ≡ is_free question self.now }
    {
        number_tables::is_free(&self.tables.questions, question)
    }

    /// Whether a question is opened and no Finish has passed since (rpc.capnp, `Finish.questionId`).
    pub(crate) fn is_unfinished(&self, question: TableKey) -> bool
        ensures { result ≡ is_unfinished question self.now }
    {
        number_tables::is_unfinished(&self.tables.questions, question)
    }

    /// Whether a Finish of a question has passed since its last opening.
    pub fn is_finished(&self, question: TableKey) -> bool
        ensures { result ≡ is_finished question self.now }
    {
        number_tables::is_finished(&self.tables.questions, question)
    }

    /// Whether a question is opened and no Return has passed since (rpc.capnp, `Return.answerId`).
    pub(crate) fn is_unreturned(&self, question: TableKey) -> bool
        ensures { result ≡ is_unreturned question self.now }
    {
        number_tables::is_unreturned(&self.tables.questions, question)
    }

    /// Whether a question's last opening is a Call whose results are to be sent elsewhere, as in a tail call (rpc.capnp,
    /// `Call.sendResultsTo.yourself`).
    pub fn is_tail(&self, question: TableKey) -> bool
        ensures { result ≡ is_tail (opening question self.now) }
    {
        number_tables::is_tail(&self.tables.questions, question)
    }

    /// Whether a Return that takes a question's results has passed since its last opening, late or not (rpc.capnp,
    /// `Return.takeFromOtherQuestion`).
    pub(crate) fn is_taken(&self, question: TableKey) -> bool
        ensures { result ≡ is_taken question self.now }
    {
        number_tables::is_taken(&self.tables.questions, question)
    }

    /// The call for which a question stands: that of its last opening, until both Return and Finish have passed, also
    /// where a Return said that no Finish is needed. A Return that takes the results of another question names that
    /// question's call so (rpc.capnp, `Return.takeFromOtherQuestion`).
    pub fn call_of(&self, question: TableKey) -> Option<u64>
        ensures { result ≡ call_of question self.now }
    {
        number_tables::call_of(&self.tables.questions, question)
    }

    /// The call of a question's last opening, over or not, if it was ever opened.
    pub fn opening_call(&self, question: TableKey) -> Option<u64>
        ensures { result ≡ call_at (opening question self.now) }
    {
        number_tables::opening_call(&self.tables.questions, question)
    }

    /// Whether a record is a late Return: a Finish with releaseResultCaps true has passed before it, for the same
    /// opening of its question.
    pub fn is_late(&self, event: &DecodedRecord) -> bool
        ensures { result ≡ is_late self.now event.now }
    {
        number_tables::is_late(&self.tables.questions, event)
    }
}
