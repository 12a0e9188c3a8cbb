//! The names of interfaces and of their methods, from a compiled schema.
//!
//! It stands on `cap_reader`. A schema is the CodeGeneratorRequest that `capnp compile -o-` writes; which names it has is
//! said in `specs/Names.antt`, by the layouts of schema.capnp in `specs/Layouts.antt`. [`read_names`] answers exactly
//! these names within the limits, or the first refusal in the order of reading.
#![tactic(auto)]

mod interface;
mod name_list;
mod nodes;
mod schema_error;
mod schema_layouts;
mod schema_name;
mod schema_reading;
mod schema_structs;

pub use cap_reader::{Limits, ReadError};
pub use interface::{Methods, SchemaInterface};
pub use name_list::SchemaNames;
pub use schema_error::SchemaError;
pub use schema_name::SchemaName;
pub use schema_reading::read_names;
