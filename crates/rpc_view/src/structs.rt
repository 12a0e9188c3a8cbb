//! Structs in which what is missing has its default: where a pointer is null, the struct is empty.

ghost use Rattle.std.specs.Prelude.{◌≡◌, ◌<◌, ◌%◌, []};
ghost use Rattle.cap_reader.specs.Tree.{root_tree};
ghost use Rattle.cap_reader.specs.Fields.{fields_in};
ghost use Rattle.cap_reader.specs.Places.{elements_at, list_len, u16_in, u32_in, u64_in, bit_in};
ghost use Rattle.rpc_view.specs.Reading.{run, part, struct_in as struct_in_tree, list_in as list_in_tree};
ghost use Rattle.rpc_view.specs.Glue.{RunsInMemory, sections_of, elements_of};

use crate::view_error::ViewError;
use cap_frame::Frame;
use cap_reader::{
    Fields, Limits, ListAt, StructAt, bit_at, fields, list_field, root, struct_field, u16_at,
    u32_at, u64_at,
};
use std::alloc::Global;

/// The root struct of a frame.
pub fn root_struct(frame: &Frame, limits: &mut Limits) -> Result<Option<StructAt>, ViewError>
    ensures { RunsInMemory (sections_of frame.now) result limits.new.words
        (run (struct_in_tree (root_tree limits.old.depth frame.now)) limits.old.words) }
{
    Ok(Some(root(frame, limits)?))
}

/// The struct at a pointer of a struct.
#[tactic(auto, unfolding(crate::specs::Reading::part, cap_reader::specs::Reading::pay_for, cap_reader::specs::Reading::and_then))]
#[inline(always)]
pub fn struct_in(
    frame: &Frame,
    place: &Option<StructAt>,
    n: u16,
    limits: &mut Limits,
) -> Result<Option<StructAt>, ViewError>
    ensures { RunsInMemory (sections_of frame.now) result limits.new.words
        (run (struct_in_tree ((sections_of frame.now place.now).child n)) limits.old.words) }
{
    match place {
        Some(place) => Ok(struct_field(frame, place, n, limits)?),
        None => Ok(None),
    }
}

/// The list of structs at a pointer of a struct.
#[tactic(auto, unfolding(crate::specs::Reading::part, cap_reader::specs::Reading::pay_for, cap_reader::specs::Reading::and_then))]
#[inline(always)]
pub fn list_in(
    frame: &Frame,
    place: &Option<StructAt>,
    n: u16,
    limits: &mut Limits,
) -> Result<Option<ListAt>, ViewError>
    ensures { RunsInMemory (elements_of frame.now) result limits.new.words
        (run (list_in_tree ((sections_of frame.now place.now).child n)) limits.old.words) }
{
    match place {
        Some(place) => Ok(list_field(frame, place, n, limits)?),
        None => Ok(None),
    }
}

/// The struct of an element of a list, counted from 0.
pub fn element_in(
    frame: &Frame,
    list: &ListAt,
    i: u32,
    limits: &mut Limits,
) -> Result<Option<StructAt>, ViewError>
    requires { i < list_len list.now }
    ensures { RunsInMemory (sections_of frame.now) result limits.new.words
        (run (struct_in_tree ((elements_at frame.now list.now).element i)) limits.old.words) }
{
    Ok(Some(list.element(i, limits)?))
}

/// The capabilities at and below a pointer of a struct.
#[tactic(auto, unfolding(crate::specs::Reading::part, cap_reader::specs::Fields::fields_in, cap_reader::specs::Reading::pay_for))]
pub fn fields_of(
    alloc: Global,
    frame: &Frame,
    place: &Option<StructAt>,
    n: u16,
    limits: &mut Limits,
) -> Result<Fields, ViewError>
    ensures { RunsInMemory (λ found. found) result limits.new.words
        (run (part (fields_in [] ((sections_of frame.now place.now).child n))) limits.old.words) }
{
    match place {
        Some(place) => Ok(fields(alloc, frame, place, n, limits)?),
        None => Ok(Fields::new(Vec::new(alloc))),
    }
}

/// The number of two bytes at a byte of the data section.
#[inline(always)]
pub fn u16_of(frame: &Frame, place: &Option<StructAt>, byte: u32) -> u16
    requires { byte % 2 ≡ 0 }
    ensures { result ≡ u16_in byte (sections_of frame.now place.now).word }
{
    match place {
        Some(place) => u16_at(frame, place, byte),
        None => 0,
    }
}

/// The number of four bytes at a byte of the data section.
#[inline(always)]
pub fn u32_of(frame: &Frame, place: &Option<StructAt>, byte: u32) -> u32
    requires { byte % 4 ≡ 0 }
    ensures { result ≡ u32_in byte (sections_of frame.now place.now).word }
{
    match place {
        Some(place) => u32_at(frame, place, byte),
        None => 0,
    }
}

/// The number of eight bytes at a byte of the data section.
#[inline(always)]
pub fn u64_of(frame: &Frame, place: &Option<StructAt>, byte: u32) -> u64
    requires { byte % 8 ≡ 0 }
    ensures { result ≡ u64_in byte (sections_of frame.now place.now).word }
{
    match place {
        Some(place) => u64_at(frame, place, byte),
        None => 0,
    }
}

/// Whether a bit of the data section is set.
#[inline(always)]
pub fn bit_of(frame: &Frame, place: &Option<StructAt>, bit: u32) -> bool
    ensures { result ≡ bit_in bit (sections_of frame.now place.now).word }
{
    match place {
        Some(place) => bit_at(frame, place, bit),
        None => false,
    }
}

/// The first word of the data section, in which most fields lie.
#[inline(always)]
pub fn first_word(frame: &Frame, place: &Option<StructAt>) -> u64
    ensures { result ≡ (sections_of frame.now place.now).word 0 }
{
    u64_of(frame, place, 0)
}

/// The number of two bytes at a byte of a word.
#[inline(always)]
pub fn u16_within(word: u64, byte: u32) -> u16
    requires aligned { byte % 2 ≡ 0 }
    requires within { byte < 8 }
    ensures { result ≡ u16_in byte (λ _. word) }
{
    ((word >> (8 * (byte % 8))) % (1 << 16)) as u16
}

/// The number of four bytes at a byte of a word.
#[inline(always)]
pub fn u32_within(word: u64, byte: u32) -> u32
    requires aligned { byte % 4 ≡ 0 }
    requires within { byte < 8 }
    ensures { result ≡ u32_in byte (λ _. word) }
{
    ((word >> (8 * (byte % 8))) % (1 << 32)) as u32
}

/// Whether a bit of a word is set.
#[inline(always)]
pub fn bit_within(word: u64, bit: u32) -> bool
    requires { bit < 64 }
    ensures { result ≡ bit_in bit (λ _. word) }
{
    (word >> (bit % 64)) % 2 == 1
}
