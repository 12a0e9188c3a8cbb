//! What several numbers of a record stand for.

ghost use Rattle.std.specs.Prelude.{◌≡◌, ◌↔◌, ◌∷◌, [], IsTrue, IfOk, IfErr};

use std::marker::Model;
use std::slice;
use vat_view::View;

/// Views as they are kept: a single one, as most records have, takes no memory of its own.
#[derive(Drop)]
enum Viewed {
    /// A single one.
    One(Option<View>),
    /// None or several.
    Several(Vec<Option<View>>),
}

/// What several numbers stand for; `None` where one stands for nothing.
#[derive(Drop)]
pub(crate) struct ViewList {
    viewed: Viewed,
}

impl Model for ViewList {
    ghost use Rattle.std.specs.Prelude.{List, Option};
    ghost use Rattle.decoded_records.specs.declared.view.View.{View};
    ghost use Rattle.vat_rules.specs.Glue.Viewed.{views_of};

    ghost Value = { List (Option View) };

    ghost view = { λ views. views_of views.viewed };
}

impl ViewList {
    /// All of these. It takes no memory.
    pub(crate) fn new(mut items: Vec<Option<View>>) -> ViewList
        ensures { result ≡ items.items }
    {
        if items.len() == 1 {
            if let Some(view) = items.pop() {
                return ViewList::one(view);
            }
        }
        ViewList {
            viewed: Viewed::Several(items),
        }
    }

    /// This one alone. It takes no memory.
    pub(crate) fn one(view: Option<View>) -> ViewList
        ensures { result ≡ view ∷ [] }
    {
        ViewList {
            viewed: Viewed::One(view),
        }
    }

    /// What they stand for, in their order.
    pub(crate) fn as_slice(&self) -> &[Option<View>]
        ensures { result.now ≡ self.now }
    {
        match &self.viewed {
            Viewed::One(view) => slice::from_ref(view),
            Viewed::Several(items) => items.as_slice(),
        }
    }

    /// Whether there are none.
    pub(crate) fn is_empty(&self) -> bool
        ensures { IsTrue result ↔ (self.now ≡ []) }
    {
        match &self.viewed {
            Viewed::One(_) => false,
            Viewed::Several(items) => items.is_empty(),
        }
    }

    /// What the one number stands for, or else the list of what all of them do.
    pub(crate) fn alone(self) -> Result<Option<View>, Vec<Option<View>>>
        ensures one { IfOk result (λ view. self ≡ view ∷ []) }
        ensures other { IfErr result (λ items. items.items ≡ self) }
    {
        match self.viewed {
            Viewed::One(view) => Ok(view),
            Viewed::Several(items) => Err(items),
        }
    }
}
