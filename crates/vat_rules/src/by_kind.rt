//! Records of the commonest kinds, which are judged with no look-up of what their numbers stand for.

ghost use Rattle.std.specs.Prelude.{◌≡◌, Decides, IfOk, IsTrue};
ghost use Rattle.vat_rules.specs.Judged.{IsGoodBy};
ghost use Rattle.vat_rules.specs.Glue.ByKind.{binds, asks_no_views, IsPlain, MeetsPlain};

use crate::asked::is_bare;
use crate::rules::of_connections::is_open;
use rpc_view::{Edition, RpcMessage};
use std::alloc::AllocError;
use vat_view::{DecodedRecord, VatState};

/// Whether a record is HOST, VOW, MAKE or FIELD, which can break REF alone.
#[inline(always)]
fn binds(event: &DecodedRecord) -> bool
    ensures { result ≡ binds event.now }
{
    match event {
        DecodedRecord::Host { .. }
        | DecodedRecord::Vow { .. }
        | DecodedRecord::Make { .. }
        | DecodedRecord::Field { .. } => true,
        _ => false,
    }
}

/// Whether a record is a Bootstrap, a Finish, a Release, or a received Call or Return. Where these carry no capability, no
/// rule asks what their numbers stand for.
#[inline]
fn asks_no_views(event: &DecodedRecord) -> bool
    ensures { result ≡ asks_no_views event.now }
{
    match event {
        DecodedRecord::Wire { sent, message, .. } => match message {
            RpcMessage::Bootstrap { .. } | RpcMessage::Finish { .. } | RpcMessage::Release { .. } =>
                true,
            RpcMessage::Call { .. } | RpcMessage::Return { .. } => !*sent,
            _ => false,
        },
        _ => false,
    }
}

/// Whether a record is one of these, and carries no capability.
#[inline]
fn is_plain(event: &DecodedRecord) -> bool
    ensures { IsTrue result → IsPlain event.now }
{
    asks_no_views(event) && is_bare(event)
}

/// Whether a record meets each rule that one of these may break.
#[inline]
fn meets_plain(
    edition: Edition,
    state: &VatState,
    event: &DecodedRecord,
) -> Result<bool, AllocError>
    ensures { IfOk result (λ met. Decides met (MeetsPlain edition state.now event.now)) }
{
    if !is_open(edition, state, event) {
        return Ok(false);
    }
    if !state.refers(event)? {
        return Ok(false);
    }
    if !state.opens_free(event) {
        return Ok(false);
    }
    if !state.uses_questions(event) {
        return Ok(false);
    }
    if !state.gives_back_held(event)? {
        return Ok(false);
    }
    Ok(state.uses_numbers(event))
}

/// Whether a message of these kinds is good that carries no capability. `false` says nothing.
#[inline]
fn is_good_message(
    edition: Edition,
    state: &VatState,
    event: &DecodedRecord,
) -> Result<bool, AllocError>
    ensures { IfOk result (λ good. IsTrue good → IsGoodBy edition state.now event.now) }
{
    if is_plain(event) {
        meets_plain(edition, state, event)
    } else {
        Ok(false)
    }
}

/// Whether a record is good, by what those of its kind alone are asked. `false` says nothing.
#[inline(always)]
pub(crate) fn is_good_by_kind(
    edition: Edition,
    state: &VatState,
    event: &DecodedRecord,
) -> Result<bool, AllocError>
    ensures { IfOk result (λ good. IsTrue good → IsGoodBy edition state.now event.now) }
{
    if binds(event) {
        state.refers(event)
    } else {
        is_good_message(edition, state, event)
    }
}
