//! What the numbers of a record stand for before it is applied.

ghost use Rattle.std.specs.Prelude.{◌≡◌, [], false, None, IfOk, IfErr};
ghost use Rattle.std.specs.Option.{option_copied};
ghost use Rattle.vat_rules.specs.Glue.Roles.{facts_by};
ghost use Rattle.vat_rules.specs.Glue.Compact.{in_role};

use crate::facts::role::{Role, view_in_role};
use crate::facts::view_list::ViewList;
use std::alloc::Global;
use std::marker::Model;
use vat_view::View;

/// What the numbers of a record stand for before it is applied, each in a field of its own; its references aren't looked
/// up yet. A record has one number in a role at most.
#[derive(Drop)]
pub(crate) struct PlainFacts {
    /// The number in a role, if it stands for something.
    number: Option<(Role, View)>,
    /// What the question stands for whose results it takes.
    taken: Option<View>,
    /// What its descriptors stand for, by place.
    caps: ViewList,
    /// Whether it is a Return that is late.
    late: bool,
}

impl Model for PlainFacts {
    ghost use Rattle.vat_rules.specs.LogFacts.{Facts};
    ghost use Rattle.vat_rules.specs.Glue.Roles.{facts_by};

    ghost Value = { Facts };

    ghost view = { λ facts. facts_by facts.number facts.taken facts.caps facts.late };
}

impl PlainFacts {
    /// Of a record with these numbers.
    pub(crate) fn new(
        number: Option<(Role, View)>,
        taken: Option<View>,
        caps: ViewList,
        late: bool,
    ) -> PlainFacts
        ensures { result ≡ facts_by number taken caps late }
    {
        PlainFacts {
            number,
            taken,
            caps,
            late,
        }
    }

    /// Of a record that has no numbers apart from its references. It takes no memory.
    pub(crate) fn nothing(alloc: Global) -> PlainFacts
        ensures { result ≡ facts_by None None [] false }
    {
        PlainFacts {
            number: None,
            taken: None,
            caps: ViewList::new(Vec::new(alloc)),
            late: false,
        }
    }

    /// What the number in this role stands for.
    pub(crate) fn in_role(&self, wanted: Role) -> Option<&View>
        ensures { option_copied result ≡ in_role wanted self.now }
    {
        match &self.number {
            Some((role, view)) => view_in_role(*role, view, wanted),
            None => None,
        }
    }

    /// What the promise stands for that it resolves.
    pub(crate) fn promise(&self) -> Option<&View>
        ensures { option_copied result ≡ self.now.promise }
    {
        self.in_role(Role::Promise)
    }

    /// What its target stands for.
    pub(crate) fn target(&self) -> Option<&View>
        ensures { option_copied result ≡ self.now.target }
    {
        self.in_role(Role::Target)
    }

    /// What the question stands for whose results it takes.
    pub(crate) fn taken(&self) -> Option<&View>
        ensures { option_copied result ≡ self.now.taken }
    {
        self.taken.as_ref()
    }

    /// What its descriptors stand for, by place.
    pub(crate) fn caps(&self) -> &[Option<View>]
        ensures { result.now ≡ self.now.caps }
    {
        self.caps.as_slice()
    }

    /// Whether it is a Return that is late.
    pub(crate) fn is_late(&self) -> bool
        ensures { result ≡ self.now.late }
    {
        self.late
    }

    /// The number in a role and the descriptors; or else all of it, where the record is a Return that is late or takes
    /// results.
    pub(crate) fn number_and_caps(self) -> Result<(Option<(Role, View)>, ViewList), PlainFacts>
        ensures parts { IfOk result (λ parts. self ≡ facts_by parts.0 None parts.1 false) }
        ensures all { IfErr result (λ all. all ≡ self) }
    {
        let PlainFacts {
            number,
            taken,
            caps,
            late,
        } = self;
        match (taken, late) {
            (None, false) => Ok((number, caps)),
            (taken, late) => Err(PlainFacts {
                number,
                taken,
                caps,
                late,
            }),
        }
    }
}
