//! Texts: lists of bytes, of which the last is a zero.

ghost use Rattle.std.specs.Prelude.{◌≡◌, ◌<◌, ◌^◌, ◌+◌, List, ℕ, Some, length, slice_index};
ghost use Rattle.std.specs.Option.{option_map};
ghost use Rattle.cap_reader.specs.Pointers.{words_of, extent as extent_in};
ghost use Rattle.cap_reader.specs.Tree.{tree_at, plain_there, plain_words};
ghost use Rattle.cap_reader.specs.Reading.{Runs, run, text_in, byte_in};
ghost use Rattle.cap_reader.specs.Places.{sections_at, text_at};

use crate::extent::{extent, word_or_zero};
use crate::following::follow;
use crate::limits::Limits;
use crate::place::StructAt;
use crate::plain_size::plain_size;
use crate::pointee::Pointee;
use crate::read_error::ReadError;
use cap_frame::Frame;

/// The element size of a list of bytes (encoding specification, "Lists").
const BYTES: u8 = 2;

/// A text: in which segment and at which word it begins, and how many bytes stand before its zero.
#[derive(Clone, Copy, Debug)]
pub struct TextAt {
    segment: u32,
    start: u32,
    len: u32,
}

/// The byte at a place of what begins at a word, counted from 0.
fn byte_from(frame: &Frame, segment: u32, start: u32, i: u32) -> u8
    ensures { result ≡ byte_in i (λ k. slice_index (words_of frame.now segment) (start + k)) }
{
    let word = word_or_zero(frame, segment, u64::from(start) + u64::from(i / 8));
    ((word >> (8 * (i % 8))) % (1 << 8)) as u8
}

/// The text to which a pointer to a list of bytes leads, after paying for the visit.
fn read(
    frame: &Frame,
    segment: u32,
    start: Option<u64>,
    count: u32,
    limits: &mut Limits,
) -> Result<TextAt, ReadError>
    ensures value { Runs (λ text. Some (text_at frame.now text)) result limits.new.words
        (run (text_in (plain_there frame.now segment 2 count
        (extent_in frame.now segment start (plain_words 2 count)))) limits.old.words) }
    ensures depth { limits.new.depth ≡ limits.old.depth }
{
    let size = plain_size(BYTES, count);
    let Some(start) = extent(frame, segment, start, size) else {
        return Err(ReadError::OutOfSegment);
    };
    if count == 0 {
        return Err(ReadError::NoZero);
    }
    let len = count - 1;
    if byte_from(frame, segment, start, len) != 0 {
        return Err(ReadError::NoZero);
    }
    if limits.words < size {
        return Err(ReadError::TooMuch);
    }
    limits.words -= size;
    Ok(TextAt {
        segment,
        start,
        len,
    })
}

/// The text at the pointer at a place, None where it is null.
#[tactic(auto, using(crate::proofs::Texts::structure_is_no_text, crate::proofs::Texts::list_is_no_text), unfolding(crate::specs::Tree::tree_behind, crate::specs::Tree::list_there, crate::specs::Reading::pay_for))]
fn text_behind(
    frame: &Frame,
    segment: u32,
    at: u64,
    depth: u32,
    limits: &mut Limits,
) -> Result<Option<TextAt>, ReadError>
    requires { at < 2 ^ 40 }
    ensures value { Runs (λ found. option_map (text_at frame.now) found) result limits.new.words
        (run (text_in (tree_at depth frame.now segment at)) limits.old.words) }
    ensures depth { limits.new.depth ≡ limits.old.depth }
{
    match follow(frame, segment, at)? {
        Pointee::Null => Ok(None),
        Pointee::List {
            segment,
            start,
            element_size: BYTES,
            count,
        } => {
            let text = read(frame, segment, start, count, limits)?;
            Ok(Some(text))
        }
        Pointee::Reserved => Err(ReadError::Reserved),
        _ => Err(ReadError::WrongKind),
    }
}

/// The text at a pointer of a struct, by the pointer's number, counted from 0. None where the pointer is null, or the
/// struct is too short to have it. A visit costs the words of its bytes and the zero behind them. Whether it is UTF-8
/// isn't judged (encoding specification, "Blobs").
///
/// # Errors
///
/// `NoSegment`, `OutOfSegment` or `BadPad` of a pad; else `Reserved`; else `WrongKind` where it isn't a list of bytes;
/// else `OutOfSegment` where the list leaves its segment; else `NoZero` where it is empty or its last byte isn't 0;
/// else `TooMuch`. The words left are as they were.
#[tactic(auto, unfolding(crate::specs::Reading::pay_for))]
pub fn text_field(
    frame: &Frame,
    place: &StructAt,
    n: u16,
    limits: &mut Limits,
) -> Result<Option<TextAt>, ReadError>
    ensures value { Runs (λ found. option_map (text_at frame.now) found) result limits.new.words
        (run (text_in ((sections_at frame.now place.now).child n)) limits.old.words) }
    ensures depth { limits.new.depth ≡ limits.old.depth }
{
    match place.pointer(n) {
        Some(at) => text_behind(frame, place.segment, at, place.below, limits),
        None => Ok(None),
    }
}

impl TextAt {
    /// How many bytes there are, without the zero behind them.
    pub fn len(&self) -> u32
        // In any frame, so in the text's own.
        ensures { (segments : List (List ℕ)) → result ≡ length (text_at segments self.now) }
    {
        self.len
    }

    /// The byte at a place, counted from 0.
    pub fn byte(&self, frame: &Frame, i: u32) -> u8
        requires { i < length (text_at frame.now self.now) }
        ensures { result ≡ slice_index (text_at frame.now self.now) i }
    {
        byte_from(frame, self.segment, self.start, i)
    }
}
