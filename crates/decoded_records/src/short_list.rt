//! Lists of which most have one item at most.

ghost use Rattle.std.specs.Prelude.{◌≡◌, ◌∷◌, [], IfOk, IfErr, option_to_list};

use crate::origin::Origin;
use crate::table_key::TableKey;
use std::marker::Model;
use std::slice;

/// Items as they are kept: none or a single one takes no memory of its own.
#[derive(Drop)]
enum KeptItems<T> {
    /// None.
    Nothing,
    /// A single one.
    One(T),
    /// Several.
    Several(Vec<T>),
}

/// Items in their order. Contracts see it as the list of these.
#[derive(Drop)]
pub struct ShortList<T> {
    kept: KeptItems<T>,
}

impl<T> Model for ShortList<T> {
    ghost use Rattle.std.specs.Prelude.{List};
    ghost use Rattle.decoded_records.specs.Glue.ShortLists.{items_of};

    ghost Value = { List T };

    ghost view = { λ list. items_of list.kept };
}

impl<T: Drop> ShortList<T> {
    /// No item. It takes no memory.
    pub fn none() -> ShortList<T>
        ensures { result ≡ [] }
    {
        ShortList {
            kept: KeptItems::Nothing,
        }
    }

    /// This one alone. It takes no memory.
    pub fn one(item: T) -> ShortList<T>
        ensures { result ≡ item ∷ [] }
    {
        ShortList {
            kept: KeptItems::One(item),
        }
    }

    /// All of these. It takes no memory.
    pub fn new(items: Vec<T>) -> ShortList<T>
        ensures { result ≡ items.items }
    {
        ShortList {
            kept: KeptItems::Several(items),
        }
    }

    /// The one item, if there is one, or else the list of several.
    pub fn alone(self) -> Result<Option<T>, Vec<T>>
        ensures one { IfOk result (λ item. option_to_list item ≡ self) }
        ensures other { IfErr result (λ items. items.items ≡ self) }
    {
        match self.kept {
            KeptItems::Nothing => Ok(None),
            KeptItems::One(item) => Ok(Some(item)),
            KeptItems::Several(items) => Err(items),
        }
    }
}

/// Origins of numbers. One item is lent as a slice where its size is known.
impl ShortList<(TableKey, Origin)> {
    /// The items, in their order.
    pub fn as_slice(&self) -> &[(TableKey, Origin)]
        ensures { result.now ≡ self.now }
    {
        match &self.kept {
            KeptItems::Nothing => &[],
            KeptItems::One(item) => slice::from_ref(item),
            KeptItems::Several(items) => items.as_slice(),
        }
    }
}
