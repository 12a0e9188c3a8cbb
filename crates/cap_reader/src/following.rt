//! Following the pads of far pointers.

ghost use Rattle.std.specs.Prelude.{◌≡◌, ◌<◌, ◌^◌, ℕ};
ghost use Rattle.cap_reader.specs.declared.pointer.Pointer.TheVariants.{Far};
ghost use Rattle.cap_reader.specs.Pointers.{pointee_of, pad_word as pad_word_in, pointee_by_tag, pointee_behind, content_in, pointee_at};

use crate::extent::word_or_zero;
use crate::pointee::Pointee;
use crate::pointer::{Pointer, start_of};
use crate::read_error::ReadError;
use cap_frame::Frame;

/// What a pointer says where it stands itself; it may not be far.
#[inline(always)]
#[tactic(auto, unfolding(crate::specs::Pointers::pointee_of))]
fn direct(segment: u32, at: u64, pointer: Pointer) -> Result<Pointee, ReadError>
    requires { at < 2 ^ 40 }
    ensures { result ≡ pointee_of segment at pointer }
{
    match pointer {
        Pointer::Null => Ok(Pointee::Null),
        Pointer::Struct {
            offset,
            data_words,
            pointer_count,
        } => Ok(Pointee::Struct {
            segment,
            start: start_of(at, offset),
            data_words,
            pointer_count,
        }),
        Pointer::List {
            offset,
            element_size,
            count,
        } => Ok(Pointee::List {
            segment,
            start: start_of(at, offset),
            element_size,
            count,
        }),
        Pointer::Far { .. } => Err(ReadError::BadPad),
        Pointer::Capability { index } => Ok(Pointee::Capability { index }),
        Pointer::Reserved => Ok(Pointee::Reserved),
    }
}

/// A word of a pad.
#[tactic(auto, unfolding(crate::specs::Pointers::pad_word))]
fn pad_word(frame: &Frame, segment: u32, at: u64) -> Result<u64, ReadError>
    ensures { result ≡ pad_word_in frame.now segment at }
{
    if segment >= frame.segments() {
        return Err(ReadError::NoSegment);
    }
    match frame.word(segment, at) {
        Some(word) => Ok(word),
        None => Err(ReadError::OutOfSegment),
    }
}

/// What has to be in a segment that is there.
fn content(frame: &Frame, segment: u32, pointee: Pointee) -> Result<Pointee, ReadError>
    ensures { result ≡ content_in frame.now segment pointee }
{
    if segment < frame.segments() {
        Ok(pointee)
    } else {
        Err(ReadError::NoSegment)
    }
}

/// What a pad of two words leads to.
#[tactic(auto, unfolding(crate::specs::Pointers::pointee_by_tag))]
fn by_tag(frame: &Frame, first: Pointer, tag: Pointer) -> Result<Pointee, ReadError>
    ensures { result ≡ pointee_by_tag frame.now first tag }
{
    let Pointer::Far {
        two_words: false,
        offset,
        segment,
    } = first
    else {
        return Err(ReadError::BadPad);
    };
    let start = Some(u64::from(offset));
    let pointee = match tag {
        Pointer::Null => Pointee::Struct {
            segment,
            start,
            data_words: 0,
            pointer_count: 0,
        },
        Pointer::Struct {
            data_words,
            pointer_count,
            ..
        } => Pointee::Struct {
            segment,
            start,
            data_words,
            pointer_count,
        },
        Pointer::List {
            element_size,
            count,
            ..
        } => Pointee::List {
            segment,
            start,
            element_size,
            count,
        },
        _ => return Err(ReadError::BadPad),
    };
    content(frame, segment, pointee)
}

/// What a far pointer leads to, by its pad of two words or of one.
#[tactic(auto, unfolding(crate::specs::Pointers::pointee_behind))]
#[cold]
#[inline(never)]
fn behind_pad(
    frame: &Frame,
    two_words: bool,
    offset: u32,
    segment: u32,
) -> Result<Pointee, ReadError>
    // Wherever the pointer stands itself.
    ensures { (here at : ℕ) → result
        ≡ pointee_behind frame.now here at (Far two_words offset segment) }
{
    let at = u64::from(offset);
    let first = pad_word(frame, segment, at)?;
    if !two_words {
        return direct(segment, at, Pointer::of(first));
    }
    let tag = pad_word(frame, segment, at + 1)?;
    by_tag(frame, Pointer::of(first), Pointer::of(tag))
}

/// What the pointer at a place leads to.
#[tactic(auto, unfolding(crate::specs::Pointers::pointee_behind))]
pub fn follow(frame: &Frame, segment: u32, at: u64) -> Result<Pointee, ReadError>
    requires { at < 2 ^ 40 }
    ensures { result ≡ pointee_at frame.now segment at }
{
    match Pointer::of(word_or_zero(frame, segment, at)) {
        Pointer::Far {
            two_words,
            offset,
            segment,
        } => behind_pad(frame, two_words, offset, segment),
        pointer => direct(segment, at, pointer),
    }
}

/// What the pointer at a place leads to, as [`follow`] says; it is made for a pointer that most often isn't far.
#[tactic(auto, unfolding(crate::specs::Pointers::pointee_behind))]
pub fn follow_near(frame: &Frame, segment: u32, at: u64) -> Result<Pointee, ReadError>
    requires { at < 2 ^ 40 }
    ensures { result ≡ pointee_at frame.now segment at }
{
    match Pointer::of(word_or_zero(frame, segment, at)) {
        Pointer::Far { .. } => follow(frame, segment, at),
        pointer => direct(segment, at, pointer),
    }
}
