//! The table at the front of a frame: how many segments there are, and the size of each.

ghost use Rattle.std.specs.Prelude.{◌≡◌, ◌<◌, ◌≤◌, ◌+◌, ◌*◌, ◌^◌, length, take, sum, slice_index, EachIndex, MatchResult, IfOk, OnOk, Ok, Err};
ghost use Rattle.cap_frame.specs.Segments.{segment_count, sizes_of, table_len, content, first_len_of, segments_of};

use crate::frame_error::FrameError;
use crate::loads::number_from;

/// The greatest number of segments that a frame may have.
const MAX_SEGMENTS: u64 = 512;

/// How many segments the bytes speak of.
#[inline(always)]
pub fn count_in(bytes: &[u8]) -> u64
    requires { 4 ≤ length bytes.now }
    ensures count { result ≡ segment_count bytes.now }
    ensures bound { result ≤ 2 ^ 32 }
    ensures bytes { EachIndex bytes.now (λ i. slice_index bytes.now i < 256) }
{
    u64::from(number_from(bytes, 0)) + 1
}

/// The bytes of a table for so many segments, its padding among them.
#[inline(always)]
pub fn table_len_for(count: u64) -> u64
    requires { count ≤ 2 ^ 32 }
    ensures { result ≡ table_len count }
{
    8 * (count / 2 + 1)
}

/// The size in words of the segment of this number, counted from 0.
#[inline(always)]
pub fn size_in(bytes: &[u8], segment: u64) -> u64
    requires known { segment < segment_count bytes.now }
    requires table { table_len (segment_count bytes.now) ≤ length bytes.now }
    ensures size { result ≡ slice_index (sizes_of bytes.now) segment }
    ensures bound { result < 2 ^ 32 }
{
    u64::from(number_from(bytes, 4 * (segment as usize + 1)))
}

/// The words of the segments before the one of this number.
pub fn words_before(bytes: &[u8], segment: u64) -> u64
    requires known { segment ≤ segment_count bytes.now }
    requires table { table_len (segment_count bytes.now) ≤ length bytes.now }
    requires few { segment_count bytes.now ≤ 512 }
    ensures sum { result ≡ sum (take segment (sizes_of bytes.now)) }
    ensures bound { result ≤ 512 * 2 ^ 32 }
{
    let mut words = 0;
    for before in 0..segment {
        words += size_in(bytes, before);
    }
    words
}

/// How many bytes the frame that stands first takes, or the first fault, whatever stands after it.
#[tactic(auto, using(crate::proofs::Frames::sum_all), unfolding(crate::specs::Segments::first_len_of))]
pub fn first_len_in(bytes: &[u8]) -> Result<u64, FrameError>
    ensures exact { result ≡ first_len_of bytes.now }
    ensures table { OnOk result (table_len (segment_count bytes.now) ≤ length bytes.now) }
    ensures within { IfOk result (λ len. len ≤ length bytes.now) }
    ensures bytes { OnOk result (EachIndex bytes.now (λ i. slice_index bytes.now i < 256)) }
{
    if bytes.len() < 4 {
        return Err(FrameError::Short);
    }
    let count = count_in(bytes);
    if count > MAX_SEGMENTS {
        return Err(FrameError::TooManySegments);
    }
    let len = bytes.len() as u64;
    let table = table_len_for(count);
    if len < table {
        return Err(FrameError::Short);
    }
    let end = table + 8 * words_before(bytes, count);
    if len < end {
        return Err(FrameError::Short);
    }
    Ok(end)
}

/// Finds the first fault of the bytes, if they aren't a frame.
#[tactic(auto, unfolding(crate::specs::Segments::segments_of))]
pub fn check(bytes: &[u8]) -> Result<(), FrameError>
    ensures exact { MatchResult result (λ _. segments_of bytes.now ≡ Ok (content bytes.now))
        (λ fault. segments_of bytes.now ≡ Err fault) }
    ensures bytes { OnOk result (EachIndex bytes.now (λ i. slice_index bytes.now i < 256)) }
{
    let end = first_len_in(bytes)?;
    if end < bytes.len() as u64 {
        return Err(FrameError::Trailing);
    }
    if size_in(bytes, 0) == 0 {
        return Err(FrameError::NoRoot);
    }
    Ok(())
}
