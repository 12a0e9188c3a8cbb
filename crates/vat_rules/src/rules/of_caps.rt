//! The rules on capability tables: what is given away is what is noted, and what comes in is noted.

ghost use Rattle.std.specs.Prelude.{◌≡◌, ◌∷◌, [], ◌&&◌, ⊤, true, Decides, IfOk, IsTrue, MatchOption};
ghost use Rattle.std.specs.List.{AllByRecursion, zip};
ghost use Rattle.std.specs.Option.{option_copied};
ghost use Rattle.decoded_records.specs.Questions.{is_late};
ghost use Rattle.decoded_records.specs.Lives.{descriptors};
ghost use Rattle.decoded_records.specs.Borrowed.{as_view};
ghost use Rattle.decoded_records.specs.Views.{places, references, placed_references, view_of_reference, views_of_descriptors};
ghost use Rattle.vat_rules.specs.Ways.{EndsIn};
ghost use Rattle.vat_rules.specs.OfCaps.{is_sent, is_received, is_light_return, is_cap_at, is_own_number, is_hosted, is_hosted_end, NotesView, Describes, BindsEach};
ghost use Rattle.vat_rules.specs.Glue.Facts.{view_at, facts_before};

use crate::facts::plain_facts::PlainFacts;
use crate::rules::leads::goes_for;
use rpc_view::{Descriptor, Edition, ReturnHead, RpcMessage};
use std::alloc::{AllocError, Global};
use vat_view::{BorrowedView, DecodedRecord, VatState, View, ends_are_one};

/// Whether a record sends a frame.
fn is_sent(event: &DecodedRecord) -> bool
    ensures { result ≡ is_sent event.now }
{
    matches!(event, DecodedRecord::Wire { sent: true, .. })
}

/// Whether a record receives a frame.
fn is_received(event: &DecodedRecord) -> bool
    ensures { result ≡ is_received event.now }
{
    matches!(event, DecodedRecord::Wire { sent: false, .. })
}

/// Whether a record notes no reference if it is a Return that says that no Finish is needed.
fn is_light_without_caps(event: &DecodedRecord) -> bool
    ensures { Decides result (is_light_return event.now ≡ true → references event.now ≡ []) }
{
    match event {
        DecodedRecord::Wire {
            references,
            message: RpcMessage::Return {
                head: ReturnHead { light: true, .. },
                ..
            },
            ..
        } => references.as_slice().is_empty(),
        _ => true,
    }
}

/// Whether there is a descriptor and it isn't none.
pub(crate) fn is_cap_at(descriptor: Option<&Descriptor>) -> bool
    ensures { result ≡ is_cap_at (option_copied descriptor.entry) }
{
    match descriptor {
        Some(descriptor) => !matches!(descriptor, Descriptor::NoCap),
        None => false,
    }
}

/// Whether there is a descriptor and it names a number of its sender's own.
pub(crate) fn is_own_number(descriptor: Option<&Descriptor>) -> bool
    ensures { result ≡ is_own_number (option_copied descriptor.entry) }
{
    matches!(
        descriptor,
        Some(Descriptor::SenderHosted(_) | Descriptor::SenderPromise(_))
    )
}

/// Whether there is a descriptor and it is senderHosted.
fn is_hosted(descriptor: Option<&Descriptor>) -> bool
    ensures { result ≡ is_hosted (option_copied descriptor.entry) }
{
    matches!(descriptor, Some(Descriptor::SenderHosted(_)))
}

/// Whether a view is an own object, or an import that came as senderHosted.
fn is_hosted_end(state: &VatState, end: BorrowedView<'_>) -> bool
    ensures { result ≡ is_hosted_end state.now (as_view end.entry) }
{
    match end {
        BorrowedView::Object(_) => true,
        BorrowedView::Import(number, place) => state.came_hosted(number, place),
        BorrowedView::Promise(_) | BorrowedView::Field(_, _) => false,
    }
}

/// Whether the end of a view, if it has one, is an own object or an import that came as senderHosted.
fn ends_hosted(state: &VatState, view: Option<&View>) -> bool
    ensures { Decides result (EndsIn state.now (option_copied view.entry)
        (λ end. IsTrue (is_hosted_end state.now end))) }
{
    ends_are_one();
    let Some(view) = view else {
        return true;
    };
    match state.end(view) {
        Some(end) => is_hosted_end(state, end),
        None => true,
    }
}

/// The view of these at a place, if one is there.
pub(crate) fn view_at(views: &[Option<View>], place: usize) -> Option<&View>
    ensures { option_copied result ≡ view_at place views.now }
{
    match views.get(place) {
        Some(view) => view.as_ref(),
        None => None,
    }
}

/// Whether a noted reference goes for what the descriptor at this place stands for, one of these, and leads to one that is
/// hosted where that says so.
fn notes_view(
    edition: Edition,
    state: &VatState,
    event: &DecodedRecord,
    caps: &[Option<View>],
    reference: u64,
    place: usize,
) -> Result<bool, AllocError>
    requires { caps.now ≡ views_of_descriptors state.now event.now }
    ensures { IfOk result (λ b. Decides b (NotesView edition state.now event.now (reference, place))) }
{
    let view = state.view_of_reference(reference)?;
    if !goes_for(edition, state, view.as_ref(), view_at(caps, place)) {
        return Ok(false);
    }
    if !is_hosted(event.descriptors().get(place)) {
        return Ok(true);
    }
    Ok(ends_hosted(state, view.as_ref()))
}

/// The places of a record's descriptors that aren't none.
fn places(alloc: Global, event: &DecodedRecord) -> Result<Vec<usize>, AllocError>
    ensures { IfOk result (λ v. v.items ≡ places event.now) }
{
    let mut places = Vec::new(alloc);
    for (place, descriptor) in event.descriptors().iter().enumerate() {
        match descriptor {
            Descriptor::NoCap => {}
            _ => places.push(place)?,
        }
    }
    Ok(places)
}

/// Each reference with the place that stands as far on.
fn views_in_pairs(
    alloc: Global,
    references: &[u64],
    places: &[usize],
) -> Result<Vec<(u64, usize)>, AllocError>
    ensures { IfOk result (λ v. v.items ≡ zip references.now places.now) }
{
    references
        .iter()
        .copied()
        .zip(places.iter().copied())
        .collect(alloc)
}

/// The references that a record notes, each with the place of its descriptor.
fn placed_references(alloc: Global, event: &DecodedRecord) -> Result<Vec<(u64, usize)>, AllocError>
    ensures { IfOk result (λ v. v.items ≡ placed_references event.now) }
{
    match event {
        DecodedRecord::Wire { references, .. } => {
            let places = places(alloc, event)?;
            views_in_pairs(alloc, references.as_slice(), &places)
        }
        _ => Ok(Vec::new(alloc)),
    }
}

/// Whether each of these references goes for what the descriptor at its place stands for.
fn notes_views(
    edition: Edition,
    state: &VatState,
    event: &DecodedRecord,
    caps: &[Option<View>],
    noted: &[(u64, usize)],
) -> Result<bool, AllocError>
    requires { caps.now ≡ views_of_descriptors state.now event.now }
    ensures { IfOk result (λ b.
        Decides b (AllByRecursion (NotesView edition state.now event.now) noted.now)) }
{
    for (reference, place) in noted {
        if !notes_view(edition, state, event, caps, *reference, *place)? {
            return Ok(false);
        }
    }
    Ok(true)
}

/// The reference that a record notes for the one descriptor that it has, if it is so.
fn only_noted(event: &DecodedRecord) -> Option<u64>
    ensures { MatchOption result ⊤
        (λ reference. placed_references event.now ≡ (reference, 0) ∷ []) }
{
    let DecodedRecord::Wire { references, .. } = event else {
        return None;
    };
    let ([reference], [descriptor]) = (references.as_slice(), event.descriptors()) else {
        return None;
    };
    match descriptor {
        Descriptor::NoCap => None,
        _ => Some(*reference),
    }
}

/// Whether each reference that a record notes goes for what the descriptor at its place stands for.
fn notes_each_view(
    alloc: Global,
    edition: Edition,
    state: &VatState,
    event: &DecodedRecord,
    caps: &[Option<View>],
) -> Result<bool, AllocError>
    requires { caps.now ≡ views_of_descriptors state.now event.now }
    ensures { IfOk result (λ b.
        Decides b (AllByRecursion (NotesView edition state.now event.now) (placed_references event.now))) }
{
    match only_noted(event) {
        Some(reference) => notes_view(edition, state, event, caps, reference, 0),
        None => notes_views(
            edition,
            state,
            event,
            caps,
            &placed_references(alloc, event)?,
        ),
    }
}

/// Whether a sent record notes one reference for each descriptor that isn't none, each going for what that stands
/// for as the edition has it, and none where it is a Return that says that no Finish is needed; and a record introduces numbers by the kind of
/// their lives.
pub(crate) fn describes(
    alloc: Global,
    edition: Edition,
    state: &VatState,
    event: &DecodedRecord,
    facts: &PlainFacts,
) -> Result<bool, AllocError>
    requires { facts.now ≡ facts_before state.now event.now }
    ensures { IfOk result (λ b. Decides b (Describes edition state.now event.now)) }
{
    let sent = is_sent(event);
    if sent && !state.notes_each(event) {
        return Ok(false);
    }
    if event.descriptors().is_empty() {
        return Ok(true);
    }
    if facts.is_late() {
        return Ok(true);
    }
    if sent && !is_light_without_caps(event) {
        return Ok(false);
    }
    if sent && !notes_each_view(alloc, edition, state, event, facts.caps())? {
        return Ok(false);
    }
    state.keeps_kinds(event)
}

/// Whether a received record notes one reference for each descriptor that isn't none, and none beside a late Return.
pub(crate) fn binds_each(state: &VatState, event: &DecodedRecord) -> bool
    ensures { Decides result (BindsEach state.now event.now) }
{
    !is_received(event) || state.notes_each(event)
}
