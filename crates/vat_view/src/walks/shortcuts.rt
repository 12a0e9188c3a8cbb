//! References and calls ahead, which are remembered so that later walks are shorter.

ghost use Rattle.std.specs.Prelude.{◌≡◌, ℕ, Some, IfSome};
ghost use Rattle.vat_view.specs.Glue.Tables.{bound_at};
ghost use Rattle.vat_view.specs.Glue.TurnTables.{turns_of, onward_by, call_onward_by, joined, IsJoined, SaysSameTurns, HaveAhead, IsCallAhead};

use crate::tables::references::{BoundReferences, Shortcut};
use crate::tables::turns::settlements::Settlements;
use crate::walks::hops::{landed_by, reference_by, turned_to, view_of};
use crate::walks::landing::Landing;
use decoded_records::{BorrowedView, TableKey};
use number_tables::ExportsImports;

/// How high a reference or a call stands among others: half of all stand at 0, a quarter at 1, and so on, in no order.
fn level(number: u64) -> u32 {
    number.wrapping_mul(0x9E37_79B9_7F4A_7C15).leading_zeros()
}

/// From where the first of two leads from to where the second leads to, with a turn between them, if the turns can be
/// counted.
fn joined(near: Shortcut, far: Shortcut) -> Option<Shortcut>
    ensures { IfSome result (λ leap. leap ≡ joined near far) }
{
    let turns = near.turns.checked_add(far.turns)?.checked_add(1)?;
    Some(Shortcut { to: far.to, turns })
}

/// Where the reference ahead of this one lands.
fn onward(turns: &Settlements, bound: &BoundReferences, reference: u64) -> Option<u64>
    ensures { result ≡ onward_by turns.now bound.now reference }
{
    let (view, _) = bound.view_ahead(reference)?;
    reference_by(turns, BorrowedView::of(view))
}

/// What is ahead of `next`, as it is ahead of a reference whose one ahead lands on `next`, which itself lands on `after`.
/// A reference passes by those alone that don't stand higher, and only once these pass by all that they can.
fn longer(bound: &BoundReferences, reference: u64, next: u64, after: u64) -> Option<Shortcut>
    ensures { IfSome result
        (λ leap. (next ≡ reference → ⊥) × IsJoined bound.now reference next leap) }
{
    if next == reference || level(next) > level(reference) || level(after) <= level(next) {
        return None;
    }
    let near = bound.ahead(reference)?;
    let far = bound.ahead(next)?;
    let leap = joined(near, far)?;
    Some(leap)
}

/// Remembers of a reference what is further ahead of it than the one now ahead of it, which lands on `next`, if there is
/// one that suits it. Answers where the reference ahead of `next` lands.
fn lengthen(
    turns: &Settlements,
    bound: &mut BoundReferences,
    reference: u64,
    next: u64,
) -> Option<u64>
    requires ahead { HaveAhead turns.now bound.old }
    requires lands { onward_by turns.now bound.old reference ≡ Some next }
    ensures views { (r : ℕ) → bound_at bound.new r ≡ bound_at bound.old r }
    ensures ahead { HaveAhead turns.now bound.new }
    ensures after { IfSome result
        (λ after. onward_by turns.now bound.new next ≡ Some after) }
{
    let after = onward(turns, bound, next)?;
    if let Some(leap) = longer(bound, reference, next, after) {
        bound.remember(reference, leap);
    }
    Some(after)
}

/// Makes the walk from this reference shorter: on its way each reference where it lands is given one that is further
/// ahead, if there is one that suits it. So a walk that is made again and again takes few hops, and so does one from
/// each view that it passes by. It marks a reference now and then, and ends in a circle where it meets the last one
/// marked. It takes no memory.
pub(crate) fn shorten(turns: &Settlements, bound: &mut BoundReferences, from: u64)
    requires { HaveAhead turns.now bound.old }
    ensures views { (r : ℕ) → bound_at bound.new r ≡ bound_at bound.old r }
    ensures ahead { HaveAhead turns.now bound.new }
{
    let Some(first) = onward(turns, bound, from) else {
        return;
    };
    let mut reference = from;
    let mut next = first;
    let mut mark = from;
    for step in 0..bound.len() {
        let Some(after) = lengthen(turns, bound, reference, next) else {
            return;
        };
        if next == mark {
            return;
        }
        if step.is_power_of_two() {
            mark = next;
        }
        reference = next;
        next = after;
    }
}

/// The call where the fields of the call ahead of this one land.
fn call_onward(turns: &Settlements, call: u64) -> Option<u64>
    ensures { result ≡ call_onward_by turns.now call }
{
    let near = turns.call_ahead(call);
    match landed_by(turns, BorrowedView::Field(near.to, &[])) {
        Some(Landing::Call(next)) => Some(next),
        _ => None,
    }
}

/// What is further ahead of a call than the one now ahead of it, which lands on `next`: what is ahead of `next`, as
/// [`longer`] has it for references.
fn longer_for_call(
    turns: &Settlements,
    bound: &BoundReferences,
    call: u64,
    next: u64,
) -> Option<Shortcut>
    requires ahead { HaveAhead turns.now bound.now }
    requires lands { call_onward_by turns.now call ≡ Some next }
    ensures { IfSome result
        (λ leap. IsCallAhead (turns_of turns.now bound.now) call leap) }
{
    if level(next) > level(call) {
        return None;
    }
    let after = call_onward(turns, next)?;
    if level(after) <= level(next) {
        return None;
    }
    let near = turns.call_ahead(call);
    let far = turns.call_ahead(next);
    let leap = joined(near, far)?;
    Some(leap)
}

/// Remembers of a call what is further ahead of it than the one now ahead of it, which lands on `next`, if there is one
/// that suits it.
fn lengthen_for_call(turns: &mut Settlements, bound: &BoundReferences, call: u64, next: u64)
    requires ahead { HaveAhead turns.old bound.now }
    requires lands { call_onward_by turns.old call ≡ Some next }
    ensures same { SaysSameTurns turns.old turns.new }
    ensures ahead { HaveAhead turns.new bound.now }
{
    let Some(leap) = longer_for_call(turns, bound, call, next) else {
        return;
    };
    turns.remember_call(call, leap);
}

/// Makes the walks from the fields of this call shorter, as far as they go by calls: as [`shorten`] does by references. It
/// takes no memory.
pub(crate) fn shorten_calls(turns: &mut Settlements, bound: &BoundReferences, from: u64)
    requires { HaveAhead turns.old bound.now }
    ensures same { SaysSameTurns turns.old turns.new }
    ensures ahead { HaveAhead turns.new bound.now }
{
    let mut call = from;
    let mut mark = from;
    for step in 0..turns.handovers_len() {
        let Some(next) = call_onward(turns, call) else {
            return;
        };
        lengthen_for_call(turns, bound, call, next);
        if next == mark {
            return;
        }
        if step.is_power_of_two() {
            mark = next;
        }
        call = next;
    }
}

/// Where a walk goes on from a view.
#[derive(Clone, Copy)]
pub(crate) struct WayOn {
    /// The call to whose field the view turns, if it does.
    pub(crate) call: Option<u64>,
    /// The reference where it lands after all such calls, if it does.
    pub(crate) reference: Option<u64>,
}

/// The reference where the field of a call at a path lands, or a field to which it turns by calls.
fn reference_beyond(turns: &Settlements, call: u64, path: &[u16]) -> Option<u64> {
    let mut call = call;
    for _passed in 0..turns.handovers_len() {
        let ahead = turns.call_ahead(call).to;
        match landed_by(turns, BorrowedView::Field(ahead, path))? {
            Landing::Reference(reference) => return Some(reference),
            Landing::Call(next) => call = next,
        }
    }
    None
}

/// Where a walk goes on from a view.
pub(crate) fn way_from(turns: &Settlements, view: BorrowedView<'_>) -> WayOn {
    match landed_by(turns, view) {
        Some(Landing::Reference(reference)) => WayOn {
            call: None,
            reference: Some(reference),
        },
        Some(Landing::Call(call)) => WayOn {
            call: Some(call),
            reference: reference_beyond(turns, call, view.path()),
        },
        None => WayOn {
            call: None,
            reference: None,
        },
    }
}

/// Where a walk by 1 or more turns goes on from a view after its first turn, if it turns.
pub(crate) fn way_after<'a>(
    turns: &Settlements,
    bound: &'a BoundReferences,
    view: BorrowedView<'a>,
) -> Option<WayOn> {
    let next = turned_to(turns, bound, view)?;
    Some(way_from(turns, next))
}

/// Where a walk goes on from the view of a reference.
pub(crate) fn way_from_reference(
    turns: &Settlements,
    bound: &BoundReferences,
    reference: u64,
) -> Option<WayOn> {
    let view = view_of(bound, reference)?;
    Some(way_from(turns, view))
}

/// What an export or import number stands for, lent.
pub(crate) fn view_of_number<'a>(
    bound: &'a BoundReferences,
    lives: &ExportsImports,
    number: TableKey,
) -> Option<BorrowedView<'a>> {
    let origin = lives.origin_of(number)?;
    if number.ours {
        view_of(bound, origin.reference?)
    } else {
        Some(BorrowedView::Import(origin.number, origin.place))
    }
}
