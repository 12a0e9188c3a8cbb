//! The rules on promises: own ones, which are kept or broken once, and those sent or received, which are resolved once.

ghost use Rattle.std.specs.Prelude.{◌≡◌, ◌≢◌, true, false, not, Decides, IfOk, slice_get};
ghost use Rattle.decoded_records.specs.Past.{id};
ghost use Rattle.decoded_records.specs.Numbers.{id_of};
ghost use Rattle.decoded_records.specs.Lives.{descriptors, is_in_life};
ghost use Rattle.std.specs.Option.{option_copied};
ghost use Rattle.decoded_records.specs.Views.{view_of_reference, view_of_descriptor, views_of_descriptors};
ghost use Rattle.vat_rules.specs.Telling.{promise_view};
ghost use Rattle.vat_rules.specs.Ways.{BecameThere};
ghost use Rattle.vat_rules.specs.OfCaps.{is_cap_at, is_own_number};
ghost use Rattle.vat_rules.specs.OfPromises.{IsUnkept, KeepsVow, is_unresolved, ResolvesTo, ResolvesPromise};

use crate::rules::leads::{became, leads_on_to};
use crate::rules::of_caps::{is_cap_at, is_own_number, view_at};
use rpc_view::{Edition, RpcMessage};
use std::alloc::AllocError;
use vat_view::{BorrowedView, DecodedRecord, Number, VatState, View};

/// Whether a reference stands for an own promise that was neither kept nor broken.
fn is_unkept(state: &VatState, reference: u64) -> Result<bool, AllocError>
    ensures { IfOk result (λ b.
        Decides b (IsUnkept state.now (view_of_reference state.now reference))) }
{
    match state.view_of_reference(reference)? {
        Some(View::Promise(promise)) => Ok(state.stays(&View::Promise(promise))),
        _ => Ok(false),
    }
}

/// Whether a promise that a record keeps or breaks has been neither kept nor broken.
pub(crate) fn keeps_vow(state: &VatState, event: &DecodedRecord) -> Result<bool, AllocError>
    ensures { IfOk result (λ b. Decides b (KeepsVow state.now event.now)) }
{
    match event {
        DecodedRecord::Fulfil { reference, .. } | DecodedRecord::Break { reference } => {
            is_unkept(state, *reference)
        }
        _ => Ok(true),
    }
}

/// Whether an export or import number is in life, began as a senderPromise and has had no Resolve.
#[inline]
fn is_unresolved(state: &VatState, connection: u32, number: Number) -> bool
    ensures { result ≡ is_unresolved (id_of connection number) state.now }
{
    let id = number.on(connection);
    match state.began_promised(id) {
        Some(promised) => promised && !state.is_resolved(id),
        None => false,
    }
}

/// Whether an import number is out of life.
fn is_gone(state: &VatState, connection: u32, number: u32) -> bool
    ensures { result ≡ not (is_in_life (id connection false number) state.now) }
{
    state.held(connection, Number::Import(number)) == 0
}

/// Whether a view became another one.
fn became_another(state: &VatState, from: Option<&View>, to: Option<&View>) -> bool
    ensures { Decides result (BecameThere state.now (option_copied from.entry) (option_copied to.entry)
        × (option_copied from.entry ≢ option_copied to.entry)) }
{
    match (from, to) {
        (Some(a), Some(b)) => {
            !BorrowedView::of(a).is_same(BorrowedView::of(b)) && became(state, from, to)
        }
        _ => false,
    }
}

/// Whether what a promise stood for may be resolved to this, which is given by a number of the sender's own or not, as the
/// edition has it.
fn is_resolved_to(
    edition: Edition,
    own: bool,
    state: &VatState,
    from: Option<&View>,
    to: Option<&View>,
) -> bool
    ensures { Decides result
        (ResolvesTo edition own state.now (option_copied from.entry) (option_copied to.entry)) }
{
    match edition {
        Edition::First => leads_on_to(state, from, to),
        Edition::Later => { leads_on_to(state, from, to) || own && became_another(state, from, to) }
    }
}

/// Whether the promise of a sent Resolve may be resolved to what its descriptor stands for, if it has one that isn't none.
fn resolves_to(
    edition: Edition,
    state: &VatState,
    event: &DecodedRecord,
    promise: Option<&View>,
    caps: &[Option<View>],
) -> bool
    requires { caps.now ≡ views_of_descriptors state.now event.now }
    ensures { Decides result (is_cap_at (slice_get (descriptors event.now) 0) ≡ true
        → ResolvesTo edition (is_own_number (slice_get (descriptors event.now) 0)) state.now
        (option_copied promise.entry) (view_of_descriptor state.now event.now 0)) }
{
    let descriptor = event.descriptors().get(0);
    if is_cap_at(descriptor) {
        let own = is_own_number(descriptor);
        is_resolved_to(edition, own, state, promise, view_at(caps, 0))
    } else {
        true
    }
}

/// Whether a Resolve is the first of a promise that is in life, and where it is sent says what the promise went on to as the
/// edition has it; or it is received for a number that is out of life.
pub(crate) fn resolves_promise(
    edition: Edition,
    state: &VatState,
    event: &DecodedRecord,
    view: Option<&View>,
    caps: &[Option<View>],
) -> bool
    requires promise { option_copied view ≡ promise_view state.now event.now }
    requires caps { caps.now ≡ views_of_descriptors state.now event.now }
    ensures { Decides result (ResolvesPromise edition state.now event.now) }
{
    let DecodedRecord::Wire {
        sent,
        connection,
        message: RpcMessage::Resolve { promise, .. },
        ..
    } = event
    else {
        return true;
    };
    if *sent {
        is_unresolved(state, *connection, Number::Export(*promise))
            && resolves_to(edition, state, event, view, caps)
    } else {
        is_gone(state, *connection, *promise)
            || is_unresolved(state, *connection, Number::Import(*promise))
    }
}
