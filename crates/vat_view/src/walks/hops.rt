//! Walks from view to view.

ghost use Rattle.std.specs.Prelude.{◌≡◌, ◌↔◌, ◌<◌, ◌^◌, IsTrue, Some, IfSome, MatchOption, None, if◌then◌else◌, is_none, option_map};
ghost use Rattle.vat_view.specs.Types.{View, FieldOf};
ghost use Rattle.decoded_records.specs.Borrowed.{as_view};
ghost use Rattle.vat_view.specs.Glue.Tables.{bound_at};
ghost use Rattle.vat_view.specs.Glue.TurnTables.{settled_at, goes_by, turn_by, landed_by, reference_by, turns_of, most_turns, after_turns, Reaches, TurnsAndThen, TurnsOn, ReachesByTurns, ReachOne, IsLast, EndsBy, HaveAhead, view_ahead_at};

use crate::tables::references::BoundReferences;
use crate::tables::turns::settlements::Settlements;
use crate::walks::landing::Landing;
use decoded_records::BorrowedView;

/// Whether no record settled a view.
pub(crate) fn stays(turns: &Settlements, view: BorrowedView<'_>) -> bool
    ensures { result ≡ is_none (settled_at turns.now (as_view view.entry)) }
{
    match view {
        BorrowedView::Object(_) => true,
        BorrowedView::Promise(promise) => !turns.has_promise(promise),
        BorrowedView::Field(call, _) => turns.of_call(call).is_none(),
        BorrowedView::Import(number, place) => !turns.has_import(number, place),
    }
}

/// Where the field of a call at a path lands.
fn field_landing(turns: &Settlements, call: u64, path: &[u16]) -> Option<Landing>
    ensures { result ≡ landed_by turns.now (FieldOf call path.now) }
{
    let number = turns.of_call(call)?;
    match turns.call_behind(call, number) {
        Some(by) => Some(Landing::Call(by)),
        None => turns.field_target(call, path).map(Landing::Reference),
    }
}

/// Where a view lands: the reference or call to which the record that settled it, if one did, turns it. No call stands
/// behind the settling of a promise or an import.
pub(crate) fn landed_by(turns: &Settlements, view: BorrowedView<'_>) -> Option<Landing>
    ensures { result ≡ landed_by turns.now (as_view view.entry) }
{
    match view {
        BorrowedView::Object(_) => None,
        BorrowedView::Promise(promise) => turns.promise_target(promise).map(Landing::Reference),
        BorrowedView::Field(call, path) => field_landing(turns, call, path),
        BorrowedView::Import(number, place) => {
            turns.import_target(number, place).map(Landing::Reference)
        }
    }
}

/// The reference where a view lands, where it lands on one. Own promises are most of what a long walk passes.
pub(crate) fn reference_by(turns: &Settlements, view: BorrowedView<'_>) -> Option<u64>
    ensures { result ≡ reference_by turns.now (as_view view.entry) }
{
    if let BorrowedView::Promise(promise) = view {
        return turns.promise_target(promise);
    }
    match landed_by(turns, view) {
        Some(Landing::Reference(reference)) => Some(reference),
        _ => None,
    }
}

/// The view of a reference, lent.
pub(crate) fn view_of(bound: &BoundReferences, reference: u64) -> Option<BorrowedView<'_>>
    ensures { option_map as_view result ≡ bound_at bound.now reference }
{
    match bound.of(reference) {
        Some(view) => Some(BorrowedView::of(view)),
        None => None,
    }
}

/// The view to which a view turns, if it does.
pub(crate) fn turned_to<'a>(
    turns: &Settlements,
    bound: &'a BoundReferences,
    view: BorrowedView<'a>,
) -> Option<BorrowedView<'a>>
    ensures { option_map as_view result
        ≡ turn_by turns.now (bound_at bound.now) (as_view view.entry) }
{
    match landed_by(turns, view)? {
        Landing::Reference(reference) => view_of(bound, reference),
        Landing::Call(call) => Some(BorrowedView::Field(call, view.path())),
    }
}

/// How many turns a walk makes at most that doesn't go in a circle.
pub(crate) fn most_turns(turns: &Settlements, bound: &BoundReferences) -> u128
    ensures { result ≡ most_turns turns.now bound.now }
{
    let references = bound.len() as u128;
    let calls = turns.handovers_len() as u128;
    calls * (references + 1) + references
}

/// How many hops are counted at most: as many as the turns of a walk that doesn't go in a circle, and all that have a
/// number of 64 bits where these are more.
fn most_hops(turns: &Settlements, bound: &BoundReferences) -> u64 {
    u64::try_from(most_turns(turns, bound)).unwrap_or(u64::MAX)
}

/// The view to which a reference's shortcut leads, if it is bound, and how many turns the shortcut skips.
fn leap_from(bound: &BoundReferences, reference: u64) -> Option<(BorrowedView<'_>, u64)>
    ensures { option_map (λ there. (as_view there.0, there.1)) result
        ≡ view_ahead_at bound.now reference }
{
    let (next, turns) = bound.view_ahead(reference)?;
    Some((BorrowedView::of(next), turns))
}

/// Follows one turn to a reference or a call, then that one's shortcut. Answers the view reached and how many turns the
/// shortcut skipped.
fn hop<'a>(
    turns: &Settlements,
    bound: &'a BoundReferences,
    view: BorrowedView<'a>,
) -> Option<(BorrowedView<'a>, u64)>
    requires { HaveAhead turns.now bound.now }
    ensures { MatchOption result (turns_of turns.now bound.now (as_view view.entry) ≡ None)
        (λ made. TurnsAndThen
        (turns_of turns.now bound.now) (as_view view.entry) made.1 (as_view made.0)) }
{
    if let BorrowedView::Promise(promise) = view {
        return leap_from(bound, turns.promise_target(promise)?);
    }
    match landed_by(turns, view)? {
        Landing::Reference(reference) => leap_from(bound, reference),
        Landing::Call(call) => {
            let leap = turns.call_ahead(call);
            Some((BorrowedView::Field(leap.to, view.path()), leap.turns))
        }
    }
}

/// A view to which a view leads by 1 or more turns, if it turns: by a hop.
pub(crate) fn hop_by<'a>(
    turns: &Settlements,
    bound: &'a BoundReferences,
    view: BorrowedView<'a>,
) -> Option<BorrowedView<'a>>
    requires { HaveAhead turns.now bound.now }
    ensures { MatchOption result (turns_of turns.now bound.now (as_view view.entry) ≡ None)
        (λ next. ReachesByTurns (turns_of turns.now bound.now) (as_view view.entry) (as_view next)) }
{
    match hop(turns, bound, view) {
        Some((next, _)) => Some(next),
        None => None,
    }
}

/// A view to which a view leads: by a hop, where it turns.
pub(crate) fn further<'a>(
    turns: &Settlements,
    bound: &'a BoundReferences,
    view: BorrowedView<'a>,
) -> BorrowedView<'a>
    requires { HaveAhead turns.now bound.now }
    ensures { Reaches (turns_of turns.now bound.now) (as_view view.entry) (as_view result) }
{
    match hop_by(turns, bound, view) {
        Some(next) => next,
        None => view,
    }
}

/// The view where a view's turns end, and how many they are. Where they are more than so many, it is some view that is
/// reached, and by what number of turns above that. The count is given up in a circle, which is seen as [`end`] sees it.
fn remaining<'a>(
    turns: &Settlements,
    bound: &'a BoundReferences,
    view: BorrowedView<'a>,
    most: u64,
) -> Option<(BorrowedView<'a>, u64)>
    requires { HaveAhead turns.now bound.now }
    ensures count { IfSome result
        (λ made. TurnsOn
        (turns_of turns.now bound.now) (as_view view.entry) most (as_view made.0) made.1) }
    ensures fits { IfSome result (λ made. made.1 < 2 ^ 64) }
{
    let mut at = view;
    let mut mark = view;
    let mut made: u64 = 0;
    for hops in 0..most_hops(turns, bound) {
        let Some((next, more)) = hop(turns, bound, at) else {
            return Some((at, made));
        };
        at = next;
        made = made.checked_add(more)?.checked_add(1)?;
        if made > most {
            return Some((at, made));
        }
        if at.is_same(mark) {
            return None;
        }
        if hops.is_power_of_two() {
            mark = at;
        }
    }
    None
}

/// The view where a hop leads that makes at most so many turns, or else one turn, and beside it by how many turns after
/// the first.
fn stride<'a>(
    turns: &Settlements,
    bound: &'a BoundReferences,
    view: BorrowedView<'a>,
    left: u64,
) -> Option<(BorrowedView<'a>, u64)>
    requires ahead { HaveAhead turns.now bound.now }
    requires left { 0 < left }
    ensures { MatchOption result (turns_of turns.now bound.now (as_view view.entry) ≡ None)
        (λ made. (made.1 < left)
        × TurnsAndThen (turns_of turns.now bound.now) (as_view view.entry) made.1 (as_view made.0)) }
{
    match hop(turns, bound, view) {
        Some((next, more)) if more < left => Some((next, more)),
        _ => match turned_to(turns, bound, view) {
            Some(next) => Some((next, 0)),
            None => None,
        },
    }
}

/// The view that a view reaches by exactly so many turns, if it makes so many.
fn nth<'a>(
    turns: &Settlements,
    bound: &'a BoundReferences,
    view: BorrowedView<'a>,
    count: u64,
) -> Option<BorrowedView<'a>>
    requires { HaveAhead turns.now bound.now }
    ensures { option_map as_view result
        ≡ after_turns (turns_of turns.now bound.now) count (Some (as_view view.entry)) }
{
    let mut at = view;
    let mut left = count;
    while left > 0 {
        match stride(turns, bound, at, left) {
            Some((next, more)) => {
                at = next;
                left -= more + 1;
            }
            None => return None,
        }
    }
    Some(at)
}

/// Whether a view leads to another by 0 or more turns, where both turns can be counted: there is one view at the place
/// where that other would stand.
fn leads_by_count(
    turns: &Settlements,
    bound: &BoundReferences,
    from: BorrowedView<'_>,
    to: BorrowedView<'_>,
) -> Option<bool>
    requires { HaveAhead turns.now bound.now }
    ensures { IfSome result
        (λ led. IsTrue led ↔ Reaches (turns_of turns.now bound.now) (as_view from.entry) (as_view to.entry)) }
{
    let (last, whole) = remaining(turns, bound, from, u64::MAX)?;
    let (_, rest) = remaining(turns, bound, to, whole)?;
    if rest == 0 {
        return Some(last.is_same(to));
    }
    if whole < rest {
        return Some(false);
    }
    let there = nth(turns, bound, from, whole - rest)?;
    Some(there.is_same(to))
}

/// Whether a view leads to another by 0 or more turns. Of two walks side by side one makes each turn, and at most as many
/// as a walk makes that doesn't go in a circle; the other hops, and may pass a view by.
fn leads_turn_by_turn(
    turns: &Settlements,
    bound: &BoundReferences,
    from: BorrowedView<'_>,
    to: BorrowedView<'_>,
) -> bool
    requires { HaveAhead turns.now bound.now }
    ensures { IsTrue result
        ↔ Reaches (turn_by turns.now (bound_at bound.now)) (as_view from.entry) (as_view to.entry) }
{
    let mut view = from;
    let mut far = from;
    for _made in 0..most_turns(turns, bound) {
        if far.is_same(to) || view.is_same(to) {
            return true;
        }
        match turned_to(turns, bound, view) {
            Some(next) => view = next,
            None => return false,
        }
        far = further(turns, bound, far);
    }
    view.is_same(to)
}

/// Whether a view leads to another by 0 or more turns. Their turns are counted by hops; where a view goes in a circle
/// each turn is made.
pub(crate) fn leads(
    turns: &Settlements,
    bound: &BoundReferences,
    from: BorrowedView<'_>,
    to: BorrowedView<'_>,
) -> bool
    requires { HaveAhead turns.now bound.now }
    ensures { IsTrue result
        ↔ Reaches (turn_by turns.now (bound_at bound.now)) (as_view from.entry) (as_view to.entry) }
{
    if from.is_same(to) {
        return true;
    }
    match leads_by_count(turns, bound, from, to) {
        Some(led) => led,
        None => leads_turn_by_turn(turns, bound, from, to),
    }
}

/// Whether a view leads to another by 1 or more turns.
pub(crate) fn leads_by_turns(
    turns: &Settlements,
    bound: &BoundReferences,
    from: BorrowedView<'_>,
    to: BorrowedView<'_>,
) -> bool
    requires { HaveAhead turns.now bound.now }
    ensures { IsTrue result
        ↔ ReachesByTurns (turn_by turns.now (bound_at bound.now)) (as_view from.entry) (as_view to.entry) }
{
    match turned_to(turns, bound, from) {
        Some(next) => leads(turns, bound, next, to),
        None => false,
    }
}

/// A view to which a view comes at last, from each view to which it leads: the one that turns no more, or where it goes in a
/// circle one of that. It walks as [`end`] does.
fn last<'a>(
    turns: &Settlements,
    bound: &'a BoundReferences,
    view: BorrowedView<'a>,
) -> BorrowedView<'a>
    requires { HaveAhead turns.now bound.now }
    ensures { IsLast (turns_of turns.now bound.now) (as_view view.entry) (as_view result) }
{
    let mut at = view;
    let mut mark = view;
    for hop in 0..most_turns(turns, bound) {
        match hop_by(turns, bound, at) {
            Some(next) => at = next,
            None => return at,
        }
        if at.is_same(mark) {
            return at;
        }
        if hop.is_power_of_two() {
            mark = at;
        }
    }
    at
}

/// Whether two views lead to a common one. Mostly the first leads to the second.
pub(crate) fn are_one(
    turns: &Settlements,
    bound: &BoundReferences,
    a: BorrowedView<'_>,
    b: BorrowedView<'_>,
) -> bool
    requires { HaveAhead turns.now bound.now }
    ensures { IsTrue result ↔ ReachOne (turns_of turns.now bound.now) (as_view a.entry) (as_view b.entry) }
{
    leads(turns, bound, a, b) || leads(turns, bound, a, last(turns, bound, b))
}

/// A view, where no record settled it.
fn end_here<'a>(turns: &Settlements, view: BorrowedView<'a>) -> Option<BorrowedView<'a>>
    ensures { option_map as_view result
        ≡ (if is_none (settled_at turns.now (as_view view.entry)) then Some (as_view view.entry) else None) }
{
    if stays(turns, view) { Some(view) } else { None }
}

/// The end of a view's walk, if it has one: it has none where the walk stops or goes in a circle. The walk hops, and ends
/// where a view turns no more. It marks a view now and then, and goes in a circle where it meets the last one marked.
pub(crate) fn end<'a>(
    turns: &Settlements,
    bound: &'a BoundReferences,
    view: BorrowedView<'a>,
) -> Option<BorrowedView<'a>>
    requires { HaveAhead turns.now bound.now }
    ensures { MatchOption result
        ((v : View) → EndsBy (goes_by turns.now (bound_at bound.now)) (as_view view.entry) v → ⊥)
        (λ v. EndsBy (goes_by turns.now (bound_at bound.now)) (as_view view.entry) (as_view v)) }
{
    let mut at = view;
    let mut mark = view;
    for hop in 0..most_turns(turns, bound) {
        match hop_by(turns, bound, at) {
            Some(next) => at = next,
            None => return end_here(turns, at),
        }
        if at.is_same(mark) {
            return None;
        }
        if hop.is_power_of_two() {
            mark = at;
        }
    }
    match turned_to(turns, bound, at) {
        Some(_) => None,
        None => end_here(turns, at),
    }
}
