//! Texts in which interfaces and methods have their names, by a schema.
//!
//! It stands on `schema_names`. Lines and notes say `interface 0000000000001234 method 2`; with names that is `Store.open
//! (0000000000001234 method 2)`. A [`NamedText`] is a text with its names put in, a [`NamedMarkup`] a document; what has no
//! name stays as it is. Both are written piece by piece, and take no memory.
#![tactic(auto)]

mod called;
mod texts;

pub use called::Called;
pub use texts::{NamedMarkup, NamedText};
