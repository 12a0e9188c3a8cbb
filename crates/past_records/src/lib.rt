//! The records of a log read once more, for notes: what those before a record made of the log's numbers. No contract says what
//! they tell, and no answer depends on them.
//!
//! It stands on `vat_view`, whose state of a log says what its numbers stand for, on `vat_rules`, which says by which edition a
//! log is read, and on `exception_reasons`. A [`Past`] is a record with the log before it, and costs one walk over that:
//! [`NumberLife`] is what was seen of an export or import meanwhile, [`QuestionOpening`] what passed of a question. Beside these stand the
//! notes that are made of them alone: numbers that aren't held, of which too much is given back, and questions that aren't free
//! or have no room for what uses them. A record is named by its number in the log, counted from 0. It needs nothing of how
//! records are printed. Of a log that isn't kept a [`Replay`] makes the past of a record: what the tables know, and no record.
//!
//! All notes go into a [`NoteText`], which remembers that memory was refused, so that nobody else has to: whoever puts a note
//! there answers nothing, and at the end it is asked once whether it took all. Elsewhere an `AllocError` says that memory was
//! refused.
#![tactic(auto)]

mod life_notes;
mod note_text;
mod number_lives;
mod openings;
mod question_notes;
mod read_again;
mod records_before;
mod replay;

pub use life_notes::{put_gone, put_life, put_miscounted};
pub use note_text::NoteText;
pub use number_lives::{Lives, NumberLife, NumberText};
pub use openings::{QuestionOpening, opening_of};
pub use question_notes::{put_misused, put_opening, put_reopened};
pub use read_again::{
    ReadFrame, decoded, decoded_as, message_at, message_of, put_reason, put_reason_of,
};
pub use records_before::Past;
pub use replay::Replay;
