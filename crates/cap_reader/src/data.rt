//! The data section of a struct. What a shorter struct lacks reads as 0; a field with another default is stored as the
//! exclusive or with it, which is the caller's to undo.

ghost use Rattle.std.specs.Prelude.{◌≡◌, ◌%◌};
ghost use Rattle.cap_reader.specs.Places.{sections_at, data_at, u16_in, u32_in, u64_in, bit_in};

use crate::extent::word_or_zero;
use crate::place::StructAt;
use cap_frame::Frame;

/// A word of the section, counted from 0.
#[inline(always)]
fn word_at(frame: &Frame, place: &StructAt, index: u32) -> u64
    ensures { result ≡ data_at frame.now place.now index }
{
    if index < u32::from(place.data_words) {
        let at = u64::from(place.start) + u64::from(index);
        word_or_zero(frame, place.segment, at)
    } else {
        0
    }
}

/// The number of two bytes, the lowest first, at a byte of the data section, counted from 0, which is a multiple of 2.
/// What a shorter struct lacks is 0. A field with another default is stored as the exclusive or with it, which is the
/// caller's to undo (encoding specification, "Default Values").
#[inline(always)]
pub fn u16_at(frame: &Frame, place: &StructAt, byte: u32) -> u16
    requires { byte % 2 ≡ 0 }
    ensures { result ≡ u16_in byte (sections_at frame.now place.now).word }
{
    ((word_at(frame, place, byte / 8) >> (8 * (byte % 8))) % (1 << 16)) as u16
}

/// The number of four bytes, the lowest first, at a byte of the data section, counted from 0, which is a multiple of 4.
/// What a shorter struct lacks is 0; another default is the caller's to undo, as in [`u16_at`].
#[inline(always)]
pub fn u32_at(frame: &Frame, place: &StructAt, byte: u32) -> u32
    requires { byte % 4 ≡ 0 }
    ensures { result ≡ u32_in byte (sections_at frame.now place.now).word }
{
    ((word_at(frame, place, byte / 8) >> (8 * (byte % 8))) % (1 << 32)) as u32
}

/// The number of eight bytes, the lowest first, at a byte of the data section, counted from 0, which is a multiple of
/// 8. What a shorter struct lacks is 0; another default is the caller's to undo, as in [`u16_at`].
#[inline(always)]
pub fn u64_at(frame: &Frame, place: &StructAt, byte: u32) -> u64
    requires { byte % 8 ≡ 0 }
    ensures { result ≡ u64_in byte (sections_at frame.now place.now).word }
{
    word_at(frame, place, byte / 8)
}

/// Whether a bit of the data section is set, counted from 0, the lowest of a byte first. What a shorter struct lacks is
/// false; another default is the caller's to undo, as in [`u16_at`].
#[inline(always)]
pub fn bit_at(frame: &Frame, place: &StructAt, bit: u32) -> bool
    ensures { result ≡ bit_in bit (sections_at frame.now place.now).word }
{
    (word_at(frame, place, bit / 64) >> (bit % 64)) % 2 == 1
}
