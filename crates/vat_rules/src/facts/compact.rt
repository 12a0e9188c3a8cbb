//! How the facts of a record are kept, in little room.

ghost use Rattle.std.specs.Prelude.{◌≡◌, [], Some, None, false, IfOk};
ghost use Rattle.std.specs.Option.{option_copied};
ghost use Rattle.vat_rules.specs.Glue.Facts.{with_references};
ghost use Rattle.vat_rules.specs.Glue.Compact.{in_role, lists_of, facts_in, facts_kept};
ghost use Rattle.vat_rules.specs.Glue.Roles.{facts_by};

use crate::facts::alike::are_one;
use crate::facts::plain_facts::PlainFacts;
use crate::facts::role::{Role, view_in_role};
use crate::facts::view_list::ViewList;
use std::alloc::{AllocError, Global};
use std::fmt::{self, Debug, Formatter, Write};
use std::marker::Model;
use std::slice;
use vat_view::View;

/// What a record's references stand for, and its descriptors.
#[derive(Drop)]
struct Lists {
    references: ViewList,
    caps: ViewList,
}

/// The same, where these may be one reference and one descriptor.
#[derive(Drop)]
enum Shape {
    /// One reference and one descriptor, which stand for the same.
    Both(Option<View>),
    /// Others.
    Listed(Lists),
}

/// All facts of a record.
#[derive(Drop)]
struct Parts {
    references: ViewList,
    facts: PlainFacts,
}

/// The facts of a record, kept in little room: most records have one number at most, or a reference and a descriptor
/// that stand for the same. Here a number in a role is one that is neither a reference nor a descriptor.
#[derive(Drop)]
enum Compact {
    /// It has none.
    Nothing,
    /// One reference alone.
    Reference(Option<View>),
    /// References alone.
    References(Vec<Option<View>>),
    /// One reference and one descriptor, which stand for the same.
    Both(Option<View>),
    /// References and descriptors.
    Listed(Box<Lists>),
    /// One number in a role alone.
    Alone(Role, View),
    /// One number in a role, with one reference and one descriptor, which stand for the same.
    WithBoth(Role, View, Box<Option<View>>),
    /// One number in a role, with references and descriptors.
    WithLists(Role, View, Box<Lists>),
    /// Numbers in several roles, or a Return that is late or takes results.
    Several(Box<Parts>),
}

/// What the numbers of one record stand for, by it and the records before it (rpc.capnp, the comments of CapDescriptor,
/// MessageTarget and PromisedAnswer), and whether it is a late Return. `None` where it has no such number, or one that
/// stands for nothing.
#[derive(Drop)]
pub struct RecordFacts {
    kept: Compact,
}

impl Model for RecordFacts {
    ghost use Rattle.vat_rules.specs.LogFacts.{Facts};
    ghost use Rattle.vat_rules.specs.Glue.Compact.{facts_kept};

    ghost Value = { Facts };

    ghost view = { λ facts. facts_kept facts.kept };
}

impl Debug for RecordFacts {
    fn fmt<W: Write>(&self, f: &mut Formatter<W>) -> fmt::Result {
        f.debug_struct("RecordFacts")
            .field("references", &self.references())
            .field("question", &self.question())
            .field("taken", &self.taken())
            .field("promise", &self.promise())
            .field("target", &self.target())
            .field("released", &self.released())
            .field("caps", &self.caps())
            .field("late", &self.is_late())
            .finish()
    }
}

/// How references and descriptors are kept.
fn shape_of(lists: Lists) -> Shape
    ensures { lists_of result ≡ lists }
{
    let Lists { references, caps } = lists;
    if !are_one(references.as_slice(), caps.as_slice()) {
        return Shape::Listed(Lists { references, caps });
    }
    match references.alone() {
        Ok(view) => Shape::Both(view),
        Err(references) => Shape::Listed(Lists {
            references: ViewList::new(references),
            caps,
        }),
    }
}

/// What is kept of references alone.
fn kept_references(references: ViewList) -> Compact
    ensures { facts_kept result ≡ facts_in None references [] }
{
    if references.is_empty() {
        return Compact::Nothing;
    }
    match references.alone() {
        Ok(view) => Compact::Reference(view),
        Err(references) => Compact::References(references),
    }
}

/// What is kept of a record without a number in a role.
fn kept_lists(alloc: Global, lists: Lists) -> Result<Compact, AllocError>
    ensures { IfOk result (λ kept. facts_kept kept ≡ facts_in None lists.references lists.caps) }
{
    if lists.caps.is_empty() {
        return Ok(kept_references(lists.references));
    }
    match shape_of(lists) {
        Shape::Both(both) => Ok(Compact::Both(both)),
        Shape::Listed(lists) => Ok(Compact::Listed(Box::new(alloc, lists)?)),
    }
}

/// What is kept of a record with one number in a role.
fn kept_with(alloc: Global, number: (Role, View), lists: Lists) -> Result<Compact, AllocError>
    ensures { IfOk result
        (λ kept. facts_kept kept ≡ facts_in (Some number) lists.references lists.caps) }
{
    let (role, view) = number;
    if lists.references.is_empty() && lists.caps.is_empty() {
        return Ok(Compact::Alone(role, view));
    }
    match shape_of(lists) {
        Shape::Both(both) => Ok(Compact::WithBoth(role, view, Box::new(alloc, both)?)),
        Shape::Listed(lists) => Ok(Compact::WithLists(role, view, Box::new(alloc, lists)?)),
    }
}

/// What is kept of a record with one number in a role, or none.
fn kept_parts(
    alloc: Global,
    number: Option<(Role, View)>,
    lists: Lists,
) -> Result<Compact, AllocError>
    ensures { IfOk result
        (λ kept. facts_kept kept ≡ facts_in number lists.references lists.caps) }
{
    match number {
        Some(number) => kept_with(alloc, number, lists),
        None => kept_lists(alloc, lists),
    }
}

impl RecordFacts {
    /// What the references of a record and its other numbers stand for.
    pub(crate) fn new(
        alloc: Global,
        references: ViewList,
        facts: PlainFacts,
    ) -> Result<RecordFacts, AllocError>
        ensures { IfOk result (λ kept. kept ≡ with_references references facts) }
    {
        let kept = match facts.number_and_caps() {
            Ok((number, caps)) => kept_parts(alloc, number, Lists { references, caps })?,
            Err(facts) => {
                let parts = Parts { references, facts };
                Compact::Several(Box::new(alloc, parts)?)
            }
        };
        Ok(RecordFacts { kept })
    }

    /// What the references of a record stand for that has no other number.
    pub(crate) fn of_references(references: ViewList) -> RecordFacts
        ensures { result ≡ with_references references (facts_by None None [] false) }
    {
        RecordFacts {
            kept: kept_references(references),
        }
    }

    /// What the references stand for that the record binds or names, in its order, with the record counted.
    pub fn references(&self) -> &[Option<View>]
        ensures { result.now ≡ self.now.references }
    {
        match &self.kept {
            Compact::Nothing | Compact::Alone(_, _) => &[],
            Compact::Reference(view) => slice::from_ref(view),
            Compact::References(views) => views.as_slice(),
            Compact::Both(view) => slice::from_ref(view),
            Compact::WithBoth(_, _, both) => slice::from_ref(&**both),
            Compact::Listed(lists) | Compact::WithLists(_, _, lists) => lists.references.as_slice(),
            Compact::Several(parts) => parts.references.as_slice(),
        }
    }

    /// What the number in this role stands for.
    fn in_role(&self, wanted: Role) -> Option<&View>
        ensures { option_copied result ≡ in_role wanted self.now }
    {
        match &self.kept {
            Compact::Alone(role, view) => view_in_role(*role, view, wanted),
            Compact::WithBoth(role, view, _) => view_in_role(*role, view, wanted),
            Compact::WithLists(role, view, _) => view_in_role(*role, view, wanted),
            Compact::Several(parts) => parts.facts.in_role(wanted),
            _ => None,
        }
    }

    /// What the question stands for that the record returns or finishes: its call, as the field at the empty path.
    pub fn question(&self) -> Option<&View>
        ensures { option_copied result ≡ self.now.question }
    {
        self.in_role(Role::Question)
    }

    /// What the question stands for whose results the record takes, the same (rpc.capnp, Return.takeFromOtherQuestion).
    pub fn taken(&self) -> Option<&View>
        ensures { option_copied result ≡ self.now.taken }
    {
        match &self.kept {
            Compact::Several(parts) => parts.facts.taken(),
            _ => None,
        }
    }

    /// What the promise stands for that the record resolves.
    pub fn promise(&self) -> Option<&View>
        ensures { option_copied result ≡ self.now.promise }
    {
        self.in_role(Role::Promise)
    }

    /// What the target of a Call or Disembargo stands for.
    pub fn target(&self) -> Option<&View>
        ensures { option_copied result ≡ self.now.target }
    {
        self.in_role(Role::Target)
    }

    /// What the number stands for that a Release gives back, if it is in life.
    pub fn released(&self) -> Option<&View>
        ensures { option_copied result ≡ self.now.released }
    {
        self.in_role(Role::Released)
    }

    /// What the descriptors of the record's capability table stand for, by place, counted from 0; `None` also for one
    /// that is none.
    pub fn caps(&self) -> &[Option<View>]
        ensures { result.now ≡ self.now.caps }
    {
        match &self.kept {
            Compact::Nothing | Compact::Alone(_, _) => &[],
            Compact::Reference(_) | Compact::References(_) => &[],
            Compact::Both(view) => slice::from_ref(view),
            Compact::WithBoth(_, _, both) => slice::from_ref(&**both),
            Compact::Listed(lists) | Compact::WithLists(_, _, lists) => lists.caps.as_slice(),
            Compact::Several(parts) => parts.facts.caps(),
        }
    }

    /// Whether the record is a Return that is late: a Finish with releaseResultCaps true passed before it, for the same
    /// opening of its question.
    pub fn is_late(&self) -> bool
        ensures { result ≡ self.now.late }
    {
        match &self.kept {
            Compact::Several(parts) => parts.facts.is_late(),
            _ => false,
        }
    }
}
