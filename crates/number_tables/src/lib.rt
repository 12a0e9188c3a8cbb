//! The tables of a vat's questions, of its export and import numbers, and of its calls.
//!
//! It stands on `rising_table` for its rows, and on `decoded_records` for what stands in them. A table says how far
//! each question or call has come, or how often each number is held and where its life began; what it answers of a
//! record is said of the table alone, and of no record before. That the tables have just what looking back over the
//! records finds is proved in `vat_view`, which keeps them: the crates are rooms of one house, and all contracts here
//! are for that one alone (`specs/Glue`).
#![tactic(auto)]

mod by_connection;
mod call_state;
mod call_table;
mod exports_imports;
mod life;
mod question;
mod question_answers;
mod question_table;

pub use call_state::{CallChange, CallState};
pub use call_table::Calls;
pub use exports_imports::ExportsImports;
pub use question::QuestionState;
pub use question_answers::{
    call_of, given_back_by, is_finished, is_free, is_late, is_tail, is_taken, is_unfinished,
    is_unreturned, opening_call,
};
pub use question_table::Questions;
