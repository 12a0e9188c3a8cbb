//! A command, run: what it asks of its source, and what it writes.
//!
//! It stands on `command_line`, whose `Command` it runs, on `case_files`, whose `Source` it asks, on the crates that read
//! logs, frames and cases, on `log_lane` and `case_streams`, which judge a log and a case while they read them, on `log_ends`,
//! which joins logs, on `audit_core`, which audits a case that is kept, and on `authority`, which finds the edges of its run;
//! `report_lines` shows what it answers. It opens no file: a source gives bytes by name, and an [`Output`] takes lines and
//! bytes. The answer of each command stands in `specs/CommandAnswers.antt`, over that of a log and of a frame
//! (`specs/Answers.antt`), of a file of frames (`specs/FrameFiles.antt`), of the records of a log (`specs/RecordAnswers.antt`), of
//! a log that is migrated (`specs/MigrationAnswers.antt`) or salvaged (`specs/SalvageAnswers.antt`), of a case whose order is asked for (`specs/OrderAnswers.antt`), of one that is
//! judged (`specs/ReportAnswers.antt`), of one that is drawn (`specs/DrawAnswers.antt`), and of logs that are joined (`specs/JoinAnswers.antt`); what a
//! run asks for and writes in `specs/Runs.antt`. [`answer_command`] does just that, or answers the error of a write;
//! [`run_on`] does it over std's writers and ends with 2 where a write failed. What [`Hears`] the answers of
//! [`answer_heard`] may tell people more of them, and an [`Output`] may write lines as something else than text: no answer
//! depends on either.
#![tactic(auto)]

mod answering;
mod commands;
mod hearing;
mod host;
mod output;
mod run;
mod watch;

pub use hearing::{Hears, Unheard};
pub use host::Host;
pub use output::{Failed, Output};
pub use run::{FAILED, answer_command, answer_heard, run_on};
pub use watch::{Unwatched, Watch};
