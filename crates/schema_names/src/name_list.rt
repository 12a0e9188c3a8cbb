//! The names of a schema.

ghost use Rattle.std.specs.Prelude.{◌≡◌, ◌==◌, ◌++◌, [], find, OnOk, OnErr};
ghost use Rattle.std.specs.Option.{option_copied};

use crate::interface::SchemaInterface;
use std::alloc::{AllocError, Global};
use std::marker::Model;

/// The interfaces of one schema, or of several, in the order in which they stand there. Contracts see them as their list.
#[derive(Debug, Drop)]
pub struct SchemaNames {
    interfaces: Vec<SchemaInterface>,
}

impl Model for SchemaNames {
    ghost use Rattle.std.specs.Prelude.{List};
    ghost use Rattle.schema_names.specs.declared.interface.SchemaInterface.{SchemaInterface};

    ghost Value = { List SchemaInterface };

    ghost view = { λ names. names.interfaces.items };
}

impl SchemaNames {
    /// No names.
    pub fn none(alloc: Global) -> SchemaNames
        ensures { result ≡ [] }
    {
        SchemaNames {
            interfaces: Vec::new(alloc),
        }
    }

    /// The list of these interfaces. It takes no memory.
    pub(crate) fn new(interfaces: Vec<SchemaInterface>) -> SchemaNames
        ensures { result ≡ interfaces.items }
    {
        SchemaNames { interfaces }
    }

    /// The interfaces, in their order.
    pub fn as_slice(&self) -> &[SchemaInterface]
        ensures { result.now ≡ self.now }
    {
        &self.interfaces
    }

    /// Puts the names of another schema behind these. Where memory is refused, nothing was put.
    pub fn append(&mut self, others: SchemaNames) -> Result<(), AllocError>
        ensures ok { OnOk result (self.new ≡ self.old ++ others) }
        ensures err { OnErr result (self.new ≡ self.old) }
    {
        let mut others = others;
        self.interfaces.append(&mut others.interfaces)
    }

    /// The first interface of a number, None where there is none.
    pub fn interface(&self, id: u64) -> Option<&SchemaInterface>
        ensures { option_copied result ≡ find (λ interface. interface.id == id) self.now }
    {
        self.interfaces.iter().find(|interface| interface.id == id)
    }
}
