//! Reading records.

ghost use Rattle.std.specs.Prelude.{◌≤◌, length, IfOk};
ghost use Rattle.vat_log.specs.Reading.{GivesInMemory, passage_at, host_at, vow_at, fulfil_at, break_at, make_at, field_at, deliver_at, answer_at, fault_at, send_at, receive_at, answer_by_at, fields_at};

use crate::body::{Body, field_body, make_body};
use crate::error::LogError;
use crate::passage::Passage;
use crate::spelling::fields::{
    frame_of, nonzero_of, path_of, references_of, results_of, u16_at, u32_at, u64_at,
};
use crate::spelling::kind::RecordKind;
use crate::version::LogVersion;
use bytes::Bytes;
use std::alloc::Global;

#[tactic(auto, unfolding(crate::specs::Reading::passage_at))]
#[inline]
fn passage_of(
    alloc: Global,
    version: LogVersion,
    bytes: &Bytes,
    at: usize,
) -> Result<(Passage, usize), LogError>
    requires { at ≤ length bytes.now }
    ensures gives { GivesInMemory (λ x. (x.0, x.1)) result (passage_at version bytes.now at) }
    ensures within { IfOk result (λ x. x.1 ≤ length bytes.now) }
{
    let (connection, after) = u32_at(bytes.as_slice(), at)?;
    let (call, after) = u64_at(bytes.as_slice(), after)?;
    let (references, after) = references_of(alloc, version, bytes.as_slice(), after)?;
    let (frame, after) = frame_of(bytes, after)?;
    let passage = Passage {
        connection,
        call,
        references,
        frame,
    };
    Ok((passage, after))
}

#[tactic(auto, unfolding(crate::specs::Reading::host_at))]
fn host_of(bytes: &[u8], at: usize) -> Result<(Body, usize), LogError>
    requires { at ≤ length bytes.now }
    ensures gives { GivesInMemory (λ x. (x.0, x.1)) result (host_at bytes.now at) }
    ensures within { IfOk result (λ x. x.1 ≤ length bytes.now) }
{
    let (reference, after) = nonzero_of(bytes, at)?;
    let (object, after) = u64_at(bytes, after)?;
    Ok((Body::Host { reference, object }, after))
}

#[tactic(auto, unfolding(crate::specs::Reading::vow_at))]
fn vow_of(bytes: &[u8], at: usize) -> Result<(Body, usize), LogError>
    requires { at ≤ length bytes.now }
    ensures gives { GivesInMemory (λ x. (x.0, x.1)) result (vow_at bytes.now at) }
    ensures within { IfOk result (λ x. x.1 ≤ length bytes.now) }
{
    let (reference, after) = nonzero_of(bytes, at)?;
    Ok((Body::Vow { reference }, after))
}

#[tactic(auto, unfolding(crate::specs::Reading::fulfil_at))]
fn fulfil_of(bytes: &[u8], at: usize) -> Result<(Body, usize), LogError>
    requires { at ≤ length bytes.now }
    ensures gives { GivesInMemory (λ x. (x.0, x.1)) result (fulfil_at bytes.now at) }
    ensures within { IfOk result (λ x. x.1 ≤ length bytes.now) }
{
    let (reference, after) = nonzero_of(bytes, at)?;
    let (to, after) = nonzero_of(bytes, after)?;
    Ok((Body::Fulfil { reference, to }, after))
}

#[tactic(auto, unfolding(crate::specs::Reading::break_at))]
fn break_of(bytes: &[u8], at: usize) -> Result<(Body, usize), LogError>
    requires { at ≤ length bytes.now }
    ensures gives { GivesInMemory (λ x. (x.0, x.1)) result (break_at bytes.now at) }
    ensures within { IfOk result (λ x. x.1 ≤ length bytes.now) }
{
    let (reference, after) = nonzero_of(bytes, at)?;
    Ok((Body::Break { reference }, after))
}

#[tactic(auto, unfolding(crate::specs::Reading::make_at))]
fn make_of(bytes: &[u8], at: usize) -> Result<(Body, usize), LogError>
    requires { at ≤ length bytes.now }
    ensures gives { GivesInMemory (λ x. (x.0, x.1)) result (make_at bytes.now at) }
    ensures within { IfOk result (λ x. x.1 ≤ length bytes.now) }
{
    let (call, after) = nonzero_of(bytes, at)?;
    let (reference, after) = nonzero_of(bytes, after)?;
    let (interface, after) = u64_at(bytes, after)?;
    let (method, after) = u16_at(bytes, after)?;
    Ok((make_body(call, reference, interface, method), after))
}

#[tactic(auto, unfolding(crate::specs::Reading::field_at))]
fn field_of(
    alloc: Global,
    version: LogVersion,
    bytes: &[u8],
    at: usize,
) -> Result<(Body, usize), LogError>
    requires { at ≤ length bytes.now }
    ensures gives { GivesInMemory (λ x. (x.0, x.1)) result (field_at version bytes.now at) }
    ensures within { IfOk result (λ x. x.1 ≤ length bytes.now) }
{
    let (reference, after) = nonzero_of(bytes, at)?;
    let (call, after) = nonzero_of(bytes, after)?;
    let (path, after) = path_of(alloc, version, bytes, after)?;
    Ok((field_body(reference, call, path), after))
}

#[tactic(auto, unfolding(crate::specs::Reading::deliver_at))]
fn deliver_of(bytes: &[u8], at: usize) -> Result<(Body, usize), LogError>
    requires { at ≤ length bytes.now }
    ensures gives { GivesInMemory (λ x. (x.0, x.1)) result (deliver_at bytes.now at) }
    ensures within { IfOk result (λ x. x.1 ≤ length bytes.now) }
{
    let (call, after) = nonzero_of(bytes, at)?;
    let (object, after) = u64_at(bytes, after)?;
    Ok((Body::Deliver { call, object }, after))
}

#[tactic(auto, unfolding(crate::specs::Reading::answer_at))]
fn answer_of(
    alloc: Global,
    version: LogVersion,
    bytes: &[u8],
    at: usize,
) -> Result<(Body, usize), LogError>
    requires { at ≤ length bytes.now }
    ensures gives { GivesInMemory (λ x. (x.0, x.1)) result (answer_at version bytes.now at) }
    ensures within { IfOk result (λ x. x.1 ≤ length bytes.now) }
{
    let (call, after) = nonzero_of(bytes, at)?;
    let (results, after) = results_of(alloc, version, bytes, after)?;
    Ok((Body::Answer { call, results }, after))
}

#[tactic(auto, unfolding(crate::specs::Reading::fault_at))]
fn fault_of(bytes: &[u8], at: usize) -> Result<(Body, usize), LogError>
    requires { at ≤ length bytes.now }
    ensures gives { GivesInMemory (λ x. (x.0, x.1)) result (fault_at bytes.now at) }
    ensures within { IfOk result (λ x. x.1 ≤ length bytes.now) }
{
    let (call, after) = nonzero_of(bytes, at)?;
    Ok((Body::Fault { call }, after))
}

#[tactic(auto, unfolding(crate::specs::Reading::send_at))]
fn send_of(
    alloc: Global,
    version: LogVersion,
    bytes: &Bytes,
    at: usize,
) -> Result<(Body, usize), LogError>
    requires { at ≤ length bytes.now }
    ensures gives { GivesInMemory (λ x. (x.0, x.1)) result (send_at version bytes.now at) }
    ensures within { IfOk result (λ x. x.1 ≤ length bytes.now) }
{
    let (passage, after) = passage_of(alloc, version, bytes, at)?;
    Ok((passage.as_send(), after))
}

#[tactic(auto, unfolding(crate::specs::Reading::receive_at))]
fn receive_of(
    alloc: Global,
    version: LogVersion,
    bytes: &Bytes,
    at: usize,
) -> Result<(Body, usize), LogError>
    requires { at ≤ length bytes.now }
    ensures gives { GivesInMemory (λ x. (x.0, x.1)) result (receive_at version bytes.now at) }
    ensures within { IfOk result (λ x. x.1 ≤ length bytes.now) }
{
    let (passage, after) = passage_of(alloc, version, bytes, at)?;
    Ok((passage.as_receive(), after))
}

#[tactic(auto, unfolding(crate::specs::Reading::answer_by_at))]
fn answer_by_of(bytes: &[u8], at: usize) -> Result<(Body, usize), LogError>
    requires { at ≤ length bytes.now }
    ensures gives { GivesInMemory (λ x. (x.0, x.1)) result (answer_by_at bytes.now at) }
    ensures within { IfOk result (λ x. x.1 ≤ length bytes.now) }
{
    let (call, after) = nonzero_of(bytes, at)?;
    let (by, after) = nonzero_of(bytes, after)?;
    Ok((Body::AnswerBy { call, by }, after))
}

/// The fields of a record of this kind.
pub(crate) fn body_of(
    alloc: Global,
    version: LogVersion,
    kind: RecordKind,
    bytes: &Bytes,
    at: usize,
) -> Result<(Body, usize), LogError>
    requires { at ≤ length bytes.now }
    ensures gives { GivesInMemory (λ x. (x.0, x.1)) result (fields_at version kind bytes.now at) }
    ensures within { IfOk result (λ x. x.1 ≤ length bytes.now) }
{
    match kind {
        RecordKind::Host => host_of(bytes.as_slice(), at),
        RecordKind::Vow => vow_of(bytes.as_slice(), at),
        RecordKind::Fulfil => fulfil_of(bytes.as_slice(), at),
        RecordKind::Break => break_of(bytes.as_slice(), at),
        RecordKind::Make => make_of(bytes.as_slice(), at),
        RecordKind::Field => field_of(alloc, version, bytes.as_slice(), at),
        RecordKind::Deliver => deliver_of(bytes.as_slice(), at),
        RecordKind::Answer => answer_of(alloc, version, bytes.as_slice(), at),
        RecordKind::Fault => fault_of(bytes.as_slice(), at),
        RecordKind::Send => send_of(alloc, version, bytes, at),
        RecordKind::Receive => receive_of(alloc, version, bytes, at),
        RecordKind::AnswerBy => answer_by_of(bytes.as_slice(), at),
    }
}
