//! Where a record turns the views that it settles.

ghost use Rattle.std.specs.Prelude.{◌≡◌, ℕ, List, None, IfOk, map, option_and_then, slice_get, if◌then◌else◌};
ghost use Rattle.std.specs.Str.{bytes_eq as same_path};
ghost use Rattle.vat_view.specs.Glue.TurnTables.{reference_at, answered_at, returned_at, target_in, answer_target, field_target, IsTurned};

use crate::record::bindings::reference_by;
use crate::tables::turns::field_targets::FieldTargets;
use crate::tables::turns::turned::Turned;
use cap_frame::Path;
use decoded_records::{DecodedRecord, descriptors, is_cap, references};
use rpc_view::{Outcome, RpcMessage};
use std::alloc::{AllocError, Global};

/// The reference noted for the descriptor at a place of a record.
fn reference_at(event: &DecodedRecord, place: usize) -> Option<u64>
    ensures { result ≡ reference_at event.now place }
{
    let mut before = 0;
    for (index, descriptor) in descriptors(event).iter().enumerate() {
        if index == place {
            return reference_by(references(event), before, descriptor);
        }
        if is_cap(descriptor) {
            before += 1;
        }
    }
    None
}

/// The references noted for the descriptors of a record, by place.
fn references_by_place(alloc: Global, event: &DecodedRecord) -> Result<Vec<Option<u64>>, AllocError>
    ensures { IfOk result
        (λ noted. (place : ℕ) → option_and_then (λ r. r) (slice_get noted.items place)
        ≡ reference_at event.now place) }
{
    let all = descriptors(event);
    let mut noted = Vec::with_capacity(alloc, all.len())?;
    let mut before = 0;
    for descriptor in all {
        noted.push(reference_by(references(event), before, descriptor))?;
        if is_cap(descriptor) {
            before += 1;
        }
    }
    Ok(noted)
}

/// ANSWER's references, each with its path.
fn answered_fields(
    alloc: Global,
    results: &[(u64, Path)],
) -> Result<Vec<(Option<u64>, Path)>, AllocError>
    ensures { IfOk result (λ fields. fields.items ≡ map answer_target results.now) }
{
    let mut fields = Vec::with_capacity(alloc, results.len())?;
    for (reference, path) in results {
        fields.push((Some(*reference), path.copy()?))?;
    }
    Ok(fields)
}

/// Where ANSWER with these references turns the fields of its call: to the one at their path.
fn answered(alloc: Global, results: &[(u64, Path)]) -> Result<Turned, AllocError>
    ensures { IfOk result
        (λ turned. (path : List ℕ) → target_in path turned ≡ answered_at path results.now) }
{
    match results {
        [] => Ok(Turned::Nowhere),
        [(reference, path)] => Ok(Turned::Field(*reference, path.copy()?)),
        _ => Ok(Turned::Fields(FieldTargets::new(answered_fields(alloc, results)?)?)),
    }
}

/// What is noted at each path of a Return's results.
fn returned_fields(
    alloc: Global,
    event: &DecodedRecord,
    results: &[(Path, u32)],
) -> Result<Vec<(Option<u64>, Path)>, AllocError>
    ensures { IfOk result
        (λ fields. fields.items ≡ map (field_target (reference_at event.now)) results.now) }
{
    let noted = references_by_place(alloc, event)?;
    let mut fields = Vec::with_capacity(alloc, results.len())?;
    for (path, place) in results {
        let reference = match noted.get(*place as usize) {
            Some(reference) => *reference,
            None => None,
        };
        fields.push((reference, path.copy()?))?;
    }
    Ok(fields)
}

/// Where a Return's results of one path turn the fields of its call.
fn returned_alone(event: &DecodedRecord, path: &Path, place: u32) -> Result<Turned, AllocError>
    ensures { IfOk result (λ turned. (at : List ℕ) → target_in at turned
        ≡ (if same_path path.now at then reference_at event.now place else None)) }
{
    match reference_at(event, place as usize) {
        Some(reference) => Ok(Turned::Field(reference, path.copy()?)),
        None => Ok(Turned::Nowhere),
    }
}

/// Where a Return's results turn the fields of its call: to what is noted for what they have at their path.
fn returned(
    alloc: Global,
    event: &DecodedRecord,
    results: &[(Path, u32)],
) -> Result<Turned, AllocError>
    ensures { IfOk result (λ turned. (path : List ℕ) → target_in path turned
        ≡ returned_at (reference_at event.now) path results.now) }
{
    match results {
        [] => Ok(Turned::Nowhere),
        [(path, place)] => returned_alone(event, path, *place),
        _ => Ok(Turned::Fields(FieldTargets::new(returned_fields(alloc, event, results)?)?)),
    }
}

/// Where a record turns the views that it settles.
pub(crate) fn turned_by(alloc: Global, event: &DecodedRecord) -> Result<Turned, AllocError>
    ensures { IfOk result (λ turned. IsTurned event.now turned) }
{
    match event {
        DecodedRecord::Fulfil { to, .. } => Ok(Turned::Reference(*to)),
        DecodedRecord::Answer { results, .. } => answered(alloc, results.as_slice()),
        DecodedRecord::Wire {
            message: RpcMessage::Return {
                outcome: Outcome::Results(payload),
                ..
            },
            ..
        } => returned(alloc, event, payload.fields.as_slice()),
        DecodedRecord::Wire {
            message: RpcMessage::Resolve { .. },
            ..
        } => match reference_at(event, 0) {
            Some(reference) => Ok(Turned::Reference(reference)),
            None => Ok(Turned::Nowhere),
        },
        _ => Ok(Turned::Nowhere),
    }
}
