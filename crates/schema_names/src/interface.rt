//! Interfaces.

ghost use Rattle.std.specs.Prelude.{◌≡◌, slice_get};
ghost use Rattle.std.specs.Option.{option_copied};

use crate::schema_name::SchemaName;
use std::marker::Model;

/// The names of an interface's methods, each at the number by which a call names it (schema.capnp, `Node.interface`).
/// Contracts see them as their list.
#[derive(Debug, Drop)]
pub struct Methods {
    items: Vec<SchemaName>,
}

impl Model for Methods {
    ghost use Rattle.std.specs.Prelude.{List, ℕ};

    ghost Value = { List (List ℕ) };

    ghost view = { λ methods. methods.items.items };
}

impl Methods {
    /// The list of these names. It takes no memory.
    pub(crate) fn new(items: Vec<SchemaName>) -> Methods
        ensures { result ≡ items.items }
    {
        Methods { items }
    }

    /// The names, in the order of their numbers.
    pub fn as_slice(&self) -> &[SchemaName]
        ensures { result.now ≡ self.now }
    {
        &self.items
    }
}

/// An interface (schema.capnp, `Node` with `interface`).
#[derive(Debug, Drop)]
pub struct SchemaInterface {
    /// The number of its type, by which a Call names it.
    pub id: u64,
    /// Its name without that of its scope.
    pub name: SchemaName,
    /// The names of its methods.
    pub methods: Methods,
}

impl SchemaInterface {
    /// The name of a method by its number, None where there is none of that number.
    pub fn method(&self, number: u16) -> Option<&SchemaName>
        ensures { option_copied result ≡ slice_get self.now.methods number }
    {
        self.methods.items.get(usize::from(number))
    }
}
