//! Reading one field of a record. A reader takes a place in the bytes, and gives the value there and the place after
//! it.

ghost use Rattle.std.specs.Prelude.{◌≡◌, ◌≤◌, length, IfOk, IfErr};
ghost use Rattle.std.specs.Int.{w16, w32, w64};
ghost use Rattle.vat_log.specs.Spelling.{count_width};
ghost use Rattle.vat_log.specs.Reading.{GivesInMemory, number_at, nonzero_at, count_at, many_at, list_at, path_at, answered_at, frame_at};

use crate::body::{References, ResultReferences};
use crate::error::LogError;
use crate::spelling::log_limits::{MAX_COUNT, MAX_FRAME};
use crate::version::LogVersion;
use bytes::Bytes;
use cap_frame::Path;
use std::alloc::Global;

#[tactic(auto, unfolding(crate::specs::Reading::number_at))]
#[inline(always)]
pub(crate) fn u16_at(bytes: &[u8], at: usize) -> Result<(u16, usize), LogError>
    requires { at ≤ length bytes.now }
    ensures gives { GivesInMemory (λ x. (x.0, x.1)) result (number_at w16 bytes.now at) }
    ensures within { IfOk result (λ x. x.1 ≤ length bytes.now) }
{
    if bytes.len() - at < 2 {
        return Err(LogError::Short(at as u64));
    }
    let field = &bytes[at..at + 2];
    Ok((u16::from_le_bytes([field[0], field[1]]), at + 2))
}

#[tactic(auto, unfolding(crate::specs::Reading::number_at))]
#[inline(always)]
pub(crate) fn u32_at(bytes: &[u8], at: usize) -> Result<(u32, usize), LogError>
    requires { at ≤ length bytes.now }
    ensures gives { GivesInMemory (λ x. (x.0, x.1)) result (number_at w32 bytes.now at) }
    ensures within { IfOk result (λ x. x.1 ≤ length bytes.now) }
    ensures cut { IfErr result (λ e. e ≡ LogError.Short at) }
{
    if bytes.len() - at < 4 {
        return Err(LogError::Short(at as u64));
    }
    let field = &bytes[at..at + 4];
    let number = u32::from_le_bytes([field[0], field[1], field[2], field[3]]);
    Ok((number, at + 4))
}

#[tactic(auto, unfolding(crate::specs::Reading::number_at))]
#[inline(always)]
pub(crate) fn u64_at(bytes: &[u8], at: usize) -> Result<(u64, usize), LogError>
    requires { at ≤ length bytes.now }
    ensures gives { GivesInMemory (λ x. (x.0, x.1)) result (number_at w64 bytes.now at) }
    ensures within { IfOk result (λ x. x.1 ≤ length bytes.now) }
{
    if bytes.len() - at < 8 {
        return Err(LogError::Short(at as u64));
    }
    let field = &bytes[at..at + 8];
    let number = u64::from_le_bytes([
        field[0], field[1], field[2], field[3], field[4], field[5], field[6], field[7],
    ]);
    Ok((number, at + 8))
}

/// A reference, or a call that has to be one.
#[tactic(auto, unfolding(crate::specs::Reading::nonzero_at))]
#[inline(always)]
pub(crate) fn nonzero_of(bytes: &[u8], at: usize) -> Result<(u64, usize), LogError>
    requires { at ≤ length bytes.now }
    ensures gives { GivesInMemory (λ x. (x.0, x.1)) result (nonzero_at bytes.now at) }
    ensures within { IfOk result (λ x. x.1 ≤ length bytes.now) }
{
    let (number, after) = u64_at(bytes, at)?;
    if number == 0 {
        return Err(LogError::ZeroNumber(at as u64));
    }
    Ok((number, after))
}

/// A number of the width that a count has in this version.
fn wide_count_at(version: LogVersion, bytes: &[u8], at: usize) -> Result<(u32, usize), LogError>
    requires { at ≤ length bytes.now }
    ensures gives { GivesInMemory (λ x. (x.0, x.1)) result
        (number_at (count_width version) bytes.now at) }
    ensures within { IfOk result (λ x. x.1 ≤ length bytes.now) }
{
    match version {
        LogVersion::One => {
            let (count, after) = u16_at(bytes, at)?;
            Ok((count as u32, after))
        }
        LogVersion::Two | LogVersion::Three => u32_at(bytes, at),
    }
}

/// How many a list has.
#[tactic(auto, unfolding(crate::specs::Reading::count_at))]
#[inline]
fn count_of(version: LogVersion, bytes: &[u8], at: usize) -> Result<(usize, usize), LogError>
    requires { at ≤ length bytes.now }
    ensures gives { GivesInMemory (λ x. (x.0, x.1)) result (count_at version bytes.now at) }
    ensures within { IfOk result (λ x. x.1 ≤ length bytes.now) }
{
    let (count, after) = wide_count_at(version, bytes, at)?;
    let count = count as usize;
    if count > MAX_COUNT {
        return Err(LogError::TooLong);
    }
    Ok((count, after))
}

fn many_references(
    alloc: Global,
    count: usize,
    bytes: &[u8],
    at: usize,
) -> Result<(Vec<u64>, usize), LogError>
    requires { at ≤ length bytes.now }
    ensures gives { GivesInMemory (λ x. (x.0.items, x.1)) result
        (many_at (nonzero_at bytes.now) count at) }
    ensures within { IfOk result (λ x. x.1 ≤ length bytes.now) }
{
    let mut references = Vec::with_capacity(alloc, count.min(bytes.len() - at))?;
    let mut place = at;
    for _ in 0..count {
        let (reference, after) = nonzero_of(bytes, place)?;
        references.push(reference)?;
        place = after;
    }
    Ok((references, place))
}

#[tactic(auto, unfolding(crate::specs::Reading::list_at))]
pub(crate) fn references_of(
    alloc: Global,
    version: LogVersion,
    bytes: &[u8],
    at: usize,
) -> Result<(References, usize), LogError>
    requires { at ≤ length bytes.now }
    ensures gives { GivesInMemory (λ x. (x.0, x.1)) result
        (list_at version (nonzero_at bytes.now) bytes.now at) }
    ensures within { IfOk result (λ x. x.1 ≤ length bytes.now) }
{
    let (count, after) = count_of(version, bytes, at)?;
    if count == 1 {
        let (reference, after) = nonzero_of(bytes, after)?;
        return Ok((References::one(reference), after));
    }
    let (references, after) = many_references(alloc, count, bytes, after)?;
    Ok((References::new(references), after))
}

fn many_path_fields(
    alloc: Global,
    count: usize,
    bytes: &[u8],
    at: usize,
) -> Result<(Vec<u16>, usize), LogError>
    requires { at ≤ length bytes.now }
    ensures gives { GivesInMemory (λ x. (x.0.items, x.1)) result
        (many_at (number_at w16 bytes.now) count at) }
    ensures within { IfOk result (λ x. x.1 ≤ length bytes.now) }
{
    let mut fields = Vec::with_capacity(alloc, count.min(bytes.len() - at))?;
    let mut place = at;
    for _ in 0..count {
        let (field, after) = u16_at(bytes, place)?;
        fields.push(field)?;
        place = after;
    }
    Ok((fields, place))
}

#[tactic(auto, unfolding(crate::specs::Reading::list_at))]
#[inline]
pub(crate) fn path_of(
    alloc: Global,
    version: LogVersion,
    bytes: &[u8],
    at: usize,
) -> Result<(Path, usize), LogError>
    requires { at ≤ length bytes.now }
    ensures gives { GivesInMemory (λ x. (x.0, x.1)) result (path_at version bytes.now at) }
    ensures within { IfOk result (λ x. x.1 ≤ length bytes.now) }
{
    let (count, after) = count_of(version, bytes, at)?;
    if count == 1 {
        let (field, after) = u16_at(bytes, after)?;
        return Ok((Path::from_slice(alloc, &[field])?, after));
    }
    let (fields, after) = many_path_fields(alloc, count, bytes, after)?;
    Ok((Path::new(fields)?, after))
}

#[tactic(auto, unfolding(crate::specs::Reading::answered_at))]
#[inline]
fn answered_of(
    alloc: Global,
    version: LogVersion,
    bytes: &[u8],
    at: usize,
) -> Result<((u64, Path), usize), LogError>
    requires { at ≤ length bytes.now }
    ensures gives { GivesInMemory (λ x. (x.0, x.1)) result (answered_at version bytes.now at) }
    ensures within { IfOk result (λ x. x.1 ≤ length bytes.now) }
{
    let (reference, after) = nonzero_of(bytes, at)?;
    let (path, after) = path_of(alloc, version, bytes, after)?;
    Ok(((reference, path), after))
}

fn many_results(
    alloc: Global,
    version: LogVersion,
    count: usize,
    bytes: &[u8],
    at: usize,
) -> Result<(Vec<(u64, Path)>, usize), LogError>
    requires { at ≤ length bytes.now }
    ensures gives { GivesInMemory (λ x. (x.0.items, x.1)) result
        (many_at (answered_at version bytes.now) count at) }
    ensures within { IfOk result (λ x. x.1 ≤ length bytes.now) }
{
    let mut results = Vec::with_capacity(alloc, count.min(bytes.len() - at))?;
    let mut place = at;
    for _ in 0..count {
        let (answered, after) = answered_of(alloc, version, bytes, place)?;
        results.push(answered)?;
        place = after;
    }
    Ok((results, place))
}

#[tactic(auto, unfolding(crate::specs::Reading::list_at))]
pub(crate) fn results_of(
    alloc: Global,
    version: LogVersion,
    bytes: &[u8],
    at: usize,
) -> Result<(ResultReferences, usize), LogError>
    requires { at ≤ length bytes.now }
    ensures gives { GivesInMemory (λ x. (x.0, x.1)) result
        (list_at version (answered_at version bytes.now) bytes.now at) }
    ensures within { IfOk result (λ x. x.1 ≤ length bytes.now) }
{
    let (count, after) = count_of(version, bytes, at)?;
    if count == 1 {
        let (answered, after) = answered_of(alloc, version, bytes, after)?;
        return Ok((ResultReferences::one(answered), after));
    }
    let (results, after) = many_results(alloc, version, count, bytes, after)?;
    Ok((ResultReferences::new(results), after))
}

/// A frame, cut out of the log's bytes without copying.
#[tactic(auto, unfolding(crate::specs::Reading::frame_at))]
pub(crate) fn frame_of(bytes: &Bytes, at: usize) -> Result<(Bytes, usize), LogError>
    requires { at ≤ length bytes.now }
    ensures gives { GivesInMemory (λ x. (x.0, x.1)) result (frame_at bytes.now at) }
    ensures within { IfOk result (λ x. x.1 ≤ length bytes.now) }
{
    let (size, begin) = u32_at(bytes.as_slice(), at)?;
    let size = size as usize;
    if size > MAX_FRAME {
        return Err(LogError::TooLong);
    }
    if bytes.len() - begin < size {
        return Err(LogError::Short(begin as u64));
    }
    let end = begin + size;
    Ok((bytes.slice(begin..end)?, end))
}
