//! How long a frame is by its table.

ghost use Rattle.std.specs.Prelude.{◌≡◌, ◌<◌, ◌≤◌, ◌+◌, ◌*◌, ◌^◌, ◌↔◌, IsTrue, length, drop, sum, slice_index};
ghost use Rattle.byteorder.specs.Endian.{little_number};
ghost use Rattle.cap_frame.specs.Segments.{segment_count, sizes_of};
ghost use Rattle.wire_cut.specs.Frames.{BeginsTooLong};

use byteorder::{ByteOrder, LittleEndian};

/// The greatest number of segments that a frame may have.
const MAX_SEGMENTS: u64 = 512;

/// How many bytes a frame may have.
const MAX_FRAME: u64 = 67_108_864;

/// The number of four bytes at a place, the lowest first.
#[tactic(auto, using(crate::proofs::Tables::number_cut_out))]
fn number_from(bytes: &[u8], at: usize) -> u32
    requires { at + 4 ≤ length bytes.now }
    ensures { result ≡ little_number 4 (drop at bytes.now) }
{
    LittleEndian::read_u32(&bytes[at..at + 4])
}

/// The size in words of the segment of this number, counted from 0.
fn size_in(bytes: &[u8], segment: u64) -> u64
    requires known { segment < segment_count bytes.now }
    requires sizes { 4 * (segment_count bytes.now + 1) ≤ length bytes.now }
    ensures size { result ≡ slice_index (sizes_of bytes.now) segment }
    ensures bound { result < 2 ^ 32 }
{
    u64::from(number_from(bytes, 4 * (segment as usize + 1)))
}

/// The words of so many segments, which are all.
#[tactic(auto, using(crate::proofs::Tables::sum_of_all))]
fn words_in(bytes: &[u8], count: u64) -> u64
    requires all { count ≡ segment_count bytes.now }
    requires sizes { 4 * (segment_count bytes.now + 1) ≤ length bytes.now }
    requires few { segment_count bytes.now ≤ 512 }
    ensures sum { result ≡ sum (sizes_of bytes.now) }
    ensures bound { result ≤ 512 * 2 ^ 32 }
{
    let mut words = 0;
    for segment in 0..count {
        words += size_in(bytes, segment);
    }
    words
}

/// Whether a frame begins here whose sizes, which stand here all, make it longer than a frame may be.
pub fn is_too_long(bytes: &[u8]) -> bool
    ensures { IsTrue result ↔ BeginsTooLong bytes.now }
{
    if bytes.len() < 4 {
        return false;
    }
    let count = u64::from(number_from(bytes, 0)) + 1;
    if count > MAX_SEGMENTS || (bytes.len() as u64) < 4 * (count + 1) {
        return false;
    }
    let table = 8 * (count / 2 + 1);
    table + 8 * words_in(bytes, count) > MAX_FRAME
}
