//! What is called, with its names.

use schema_names::{SchemaInterface, SchemaNames};
use std::fmt::{self, Formatter};

/// What names stand in.
#[derive(Clone, Copy, PartialEq, Eq)]
pub(crate) enum Form {
    /// Lines, for people.
    Plain,
    /// A document of SVG or HTML, in which some letters mean something else.
    Markup,
}

/// A method that is called, of an interface that has a name: `Store.open (0000000000001234 method 2)`, and without the
/// method's name where it has none.
#[derive(Clone, Copy)]
pub struct Called<'a> {
    interface: &'a SchemaInterface,
    method: u16,
}

impl<'a> Called<'a> {
    /// The method of this number, of the interface of this one. None where the interface has no name.
    pub fn of(names: &'a SchemaNames, interface: u64, method: u16) -> Option<Called<'a>> {
        let interface = names.interface(interface)?;
        Some(Called { interface, method })
    }

    /// The name of the interface.
    pub fn interface_name(&self) -> &'a str {
        self.interface.name.as_str()
    }

    /// The name of the method, None where it has none.
    pub fn method_name(&self) -> Option<&'a str> {
        Some(self.interface.method(self.method)?.as_str())
    }

    /// Writes it into a text of this form.
    pub(crate) fn put<W: fmt::Write>(&self, f: &mut Formatter<W>, form: Form) -> fmt::Result {
        put_name(f, self.interface_name(), form)?;
        if let Some(method) = self.method_name() {
            f.write_str(".")?;
            put_name(f, method, form)?;
        }
        let (id, number) = (self.interface.id, self.method);
        write!(f, " ({id:016x} method {number})")
    }
}

/// Writes a letter of a name into a document.
fn put_letter<W: fmt::Write>(f: &mut Formatter<W>, letter: u8) -> fmt::Result {
    match letter {
        b'&' => f.write_str("&amp;"),
        b'<' => f.write_str("&lt;"),
        b'>' => f.write_str("&gt;"),
        b'"' => f.write_str("&quot;"),
        b'\'' => f.write_str("&#39;"),
        letter => f.write_char(letter as char),
    }
}

/// Writes a name into a text of this form.
fn put_name<W: fmt::Write>(f: &mut Formatter<W>, name: &str, form: Form) -> fmt::Result {
    if form == Form::Plain {
        return f.write_str(name);
    }
    for letter in name.as_bytes() {
        put_letter(f, *letter)?;
    }
    Ok(())
}
