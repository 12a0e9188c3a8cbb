//! Names.

ghost use Rattle.std.specs.Prelude.{◌≡◌};
ghost use Rattle.std.specs.String.{string_bytes};

use std::fmt;
use std::fmt::{Display, Formatter};
use std::marker::Model;

/// The name of an interface, or of a method: letters of printable ASCII, from `!` to `~`, and at least one. Contracts see
/// it as the list of their codes.
#[derive(Debug, Drop)]
pub struct SchemaName {
    text: String,
}

impl Model for SchemaName {
    ghost use Rattle.std.specs.Prelude.{List, ℕ};
    ghost use Rattle.std.specs.String.{string_bytes};

    ghost Value = { List ℕ };

    ghost view = { λ name. string_bytes name.text };
}

impl SchemaName {
    /// The name of these letters. It takes no memory.
    pub(crate) fn new(text: String) -> SchemaName
        ensures { result ≡ string_bytes text }
    {
        SchemaName { text }
    }

    /// Its letters.
    pub fn as_str(&self) -> &str
        ensures { result.now ≡ self.now }
    {
        self.text.as_str()
    }
}

impl Display for SchemaName {
    ghost use Rattle.std.specs.Prelude.{Some};

    ghost output = { λ name. Some name };

    fn fmt<W: fmt::Write>(&self, f: &mut Formatter<W>) -> fmt::Result {
        f.write_str(self.text.as_str())
    }
}
