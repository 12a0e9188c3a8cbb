//! Texts with names.

use crate::called::{Called, Form};
use schema_names::SchemaNames;
use std::fmt::{self, Display, Formatter};

/// The word before an interface's number.
const INTERFACE: &str = "interface ";

/// What stands between an interface's number and a method's.
const METHOD: &str = " method ";

/// How many bytes at the start of a text are decimal digits.
fn digits_at_start(text: &str) -> usize {
    let mut bytes = text.as_bytes().iter();
    bytes
        .position(|byte| !byte.is_ascii_digit())
        .unwrap_or(text.len())
}

/// The method with which a text begins, of an interface that has a name, and what stands behind it.
fn called_at<'a, 'b>(names: &'a SchemaNames, text: &'b str) -> Option<(Called<'a>, &'b str)> {
    let (interface, rest) = text.split_once(METHOD)?;
    if interface.len() != 16 {
        return None;
    }
    let interface = u64::from_str_radix(interface, 16).ok()?;
    let end = digits_at_start(rest);
    let method = rest.get(0..end)?.parse::<u16>().ok()?;
    Some((Called::of(names, interface, method)?, rest.get(end..)?))
}

/// Writes what stands behind the word for an interface, with the word or with names in its place.
fn put_piece<W: fmt::Write>(
    f: &mut Formatter<W>,
    names: &SchemaNames,
    piece: &str,
    form: Form,
) -> fmt::Result {
    match called_at(names, piece) {
        Some((called, rest)) => {
            called.put(f, form)?;
            f.write_str(rest)
        }
        None => write!(f, "{INTERFACE}{piece}"),
    }
}

/// Writes a text of this form, in which each `interface I method N` has names, where the schema has them.
fn put_text<W: fmt::Write>(
    f: &mut Formatter<W>,
    names: &SchemaNames,
    text: &str,
    form: Form,
) -> fmt::Result {
    let mut pieces = text.split(INTERFACE);
    f.write_str(pieces.next().unwrap_or(""))?;
    for piece in pieces {
        put_piece(f, names, piece, form)?;
    }
    Ok(())
}

/// A text for people, in which each `interface I method N` has names, where the schema has them.
#[derive(Clone, Copy)]
pub struct NamedText<'a> {
    pub names: &'a SchemaNames,
    pub text: &'a str,
}

impl Display for NamedText<'_> {
    fn fmt<W: fmt::Write>(&self, f: &mut Formatter<W>) -> fmt::Result {
        put_text(f, self.names, self.text, Form::Plain)
    }
}

/// The same of a document of SVG or HTML: names are text in it, whatever letters they have.
#[derive(Clone, Copy)]
pub struct NamedMarkup<'a> {
    pub names: &'a SchemaNames,
    pub text: &'a str,
}

impl Display for NamedMarkup<'_> {
    fn fmt<W: fmt::Write>(&self, f: &mut Formatter<W>) -> fmt::Result {
        put_text(f, self.names, self.text, Form::Markup)
    }
}
