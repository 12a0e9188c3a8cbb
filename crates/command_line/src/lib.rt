//! Command lines: the words, the command that they spell, and its help.
//!
//! It stands on `clap`, which says what the words give, and is the one crate that reads clap's definitions. Which
//! words spell a command stands in `specs/Spelled.antt`, over what clap is told of the command line
//! (`specs/Parser.antt`). [`command_of`] gives only a command that the words spell, and takes the words that have its
//! form.
#![tactic(auto)]

mod command;
mod help;
mod parser;
mod version;

pub use command::{Command, command_of};
pub use version::VERSION;
