//! Lists of numbers of connections.

ghost use Rattle.std.specs.Prelude.{◌≡◌, ◌∷◌, [], IfOk};

use crate::table_key::TableKey;
use std::alloc::{AllocError, Global};
use std::marker::Model;
use std::slice;

/// Numbers as they are kept: most records introduce one at most, which takes no memory of its own.
#[derive(Drop)]
enum KeptKeys {
    /// None.
    Nothing,
    /// A single one.
    One(TableKey),
    /// Several.
    Several(Box<Vec<TableKey>>),
}

/// Numbers, in the order of the descriptors that introduced them.
#[derive(Drop)]
pub struct TableKeys {
    kept: KeptKeys,
}

impl Model for TableKeys {
    ghost use Rattle.std.specs.Prelude.{List};
    ghost use Rattle.decoded_records.specs.declared.table_key.TableKey.{TableKey};
    ghost use Rattle.decoded_records.specs.Glue.Ids.{ids_of};

    ghost Value = { List TableKey };

    ghost view = { λ ids. ids_of ids.kept };
}

impl TableKeys {
    /// No numbers. It takes no memory.
    pub fn none() -> TableKeys
        ensures { result ≡ [] }
    {
        TableKeys {
            kept: KeptKeys::Nothing,
        }
    }

    /// This one alone. It takes no memory.
    pub fn one(number: TableKey) -> TableKeys
        ensures { result ≡ number ∷ [] }
    {
        TableKeys {
            kept: KeptKeys::One(number),
        }
    }

    /// The list of these. The only error is that memory ran out.
    pub fn new(alloc: Global, items: Vec<TableKey>) -> Result<TableKeys, AllocError>
        ensures { IfOk result (λ ids. ids ≡ items.items) }
    {
        if items.is_empty() {
            return Ok(TableKeys::none());
        }
        if let [number] = items.as_slice() {
            return Ok(TableKeys::one(*number));
        }
        Ok(TableKeys {
            kept: KeptKeys::Several(Box::new(alloc, items)?),
        })
    }

    /// The numbers, in their order.
    pub fn as_slice(&self) -> &[TableKey]
        ensures { result.now ≡ self.now }
    {
        match &self.kept {
            KeptKeys::Nothing => &[],
            KeptKeys::One(number) => slice::from_ref(number),
            KeptKeys::Several(items) => items.as_slice(),
        }
    }
}
