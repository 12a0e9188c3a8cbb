//! Frames of the stream framing.

ghost use Rattle.std.specs.Prelude.{◌≡◌, ◌<◌, ◌≤◌, ◌^◌, ◌&&◌, IsTrue, List, [], ℕ, length, take, nat_lt, nat_le, slice_index_or, IfOk, IfErr, Ok, Err};
ghost use Rattle.cap_frame.specs.Segments.{word_at, first_len_of, segments_of, IsOneFrame, Spells};

use crate::frame_error::FrameError;
use crate::loads::word_from;
use crate::table::{check, count_in, first_len_in, size_in, table_len_for, words_before};
use std::marker::Model;

/// A frame: its segments, each a list of words of 8 bytes. Contracts see it as those lists. Its bytes are lent, and it keeps
/// where the first segment lies in them, since most frames have one alone; for another segment each call finds its place
/// anew.
#[derive(Debug, Drop)]
pub struct Frame<'a> {
    bytes: &'a [u8],
    /// How many bytes stand before the first segment.
    first: u64,
    /// How many words the first segment has.
    size: u64,
}

impl<'a> Model for Frame<'a> {
    ghost use Rattle.std.specs.Prelude.{◌≡◌, ◌<◌, ◌^◌, List, ℕ, Ok, slice_index};
    ghost use Rattle.cap_frame.specs.Segments.{content, segments_of, segment_count, sizes_of, table_len};

    ghost Value = { List (List ℕ) };

    ghost view = { λ frame. content frame.bytes.now };

    ghost invariant = { λ frame. (segments_of frame.bytes.now ≡ Ok (content frame.bytes.now))
        × (frame.first ≡ table_len (segment_count frame.bytes.now))
        × (frame.size ≡ slice_index (sizes_of frame.bytes.now) 0)
        × (frame.first < 2 ^ 32) × (frame.size < 2 ^ 32) };
}

impl<'a> Frame<'a> {
    /// The frame that the bytes spell, all of the bytes, by the stream framing of the Cap'n Proto encoding
    /// specification ("Serialization Over a Stream"). Else the first fault: [`FrameError::Short`] with fewer than 4
    /// bytes, [`FrameError::TooManySegments`], `Short` where the sizes, the padding or the segments don't fit,
    /// [`FrameError::Trailing`], [`FrameError::NoRoot`]. The padding may hold anything. It takes no memory.
    pub fn read(bytes: &'a [u8]) -> Result<Frame<'a>, FrameError>
        // Which segments, or which fault.
        ensures exact { result ≡ segments_of bytes.now }
        // What is read is spelled so.
        ensures found { IfOk result (λ segments. Spells bytes.now segments) }
        // What is spelled so is read, whatever the padding.
        ensures only { (segments : List (List ℕ)) → Spells bytes.now segments → result ≡ Ok segments }
    {
        check(bytes)?;
        let first = table_len_for(count_in(bytes));
        let size = size_in(bytes, 0);
        Ok(Frame { bytes, first, size })
    }

    /// The length in bytes of the frame that stands first: its table with the padding, and its segments, by the stream
    /// framing of the Cap'n Proto encoding specification ("Serialization Over a Stream"). Whatever stands after it
    /// doesn't matter. Else the first fault: [`FrameError::Short`] with fewer than 4 bytes,
    /// [`FrameError::TooManySegments`], `Short` where the sizes, the padding or the segments don't fit. A frame whose
    /// first segment has no words is as long as any other, and [`Frame::read`] then refuses it. It takes no memory.
    pub fn first_len(bytes: &[u8]) -> Result<usize, FrameError>
        // Which length, or which fault.
        ensures exact { result ≡ first_len_of bytes.now }
        // So many bytes are there, and they are one frame and nothing after it.
        ensures cut { IfOk result
            (λ len. (len ≤ length bytes.now) × IsOneFrame (segments_of (take len bytes.now))) }
        // No other number of bytes from the start is one frame; where any is, none is refused.
        ensures only { (len : ℕ) → len ≤ length bytes.now
            → IsOneFrame (segments_of (take len bytes.now)) → result ≡ Ok len }
        // What is refused is what all of the bytes would be refused by.
        ensures refused { IfErr result (λ fault. segments_of bytes.now ≡ Err fault) }
        // A frame has a word or more, so what is left is shorter.
        ensures some { IfOk result (λ len. 8 ≤ len) }
    {
        let len = first_len_in(bytes)?;
        Ok(len as usize)
    }

    /// How many segments there are, 1 to 512. Each has fewer than 2^32 words.
    pub fn segments(&self) -> u32
        ensures count { result ≡ length self.now }
        ensures bound { result ≤ 512 }
        ensures sized { (segment : ℕ) → length (slice_index_or self.now segment []) < 2 ^ 32 }
    {
        count_in(self.bytes) as u32
    }

    /// Whether the segment of this number, counted from 0, is there and has so many words.
    #[inline(always)]
    pub fn has_words(&self, segment: u32, count: u64) -> bool
        ensures value { result
            ≡ (nat_lt segment (length self.now)
            && nat_le count (length (slice_index_or self.now segment []))) }
        ensures short { IsTrue result → count < 2 ^ 32 }
    {
        if segment == 0 {
            count <= self.size
        } else {
            self.has_words_of(segment, count)
        }
    }

    /// The word at a place of a segment, both counted from 0, or None where there is none.
    #[inline(always)]
    pub fn word(&self, segment: u32, index: u64) -> Option<u64>
        ensures { result ≡ word_at self.now segment index }
    {
        if segment == 0 {
            self.first_word(index)
        } else {
            self.word_of(segment, index)
        }
    }

    /// The word at a place of the first segment.
    #[inline(always)]
    fn first_word(&self, index: u64) -> Option<u64>
        ensures { result ≡ word_at self.now 0 index }
    {
        if index >= self.size {
            return None;
        }
        let at = self.first + 8 * index;
        Some(word_from(self.bytes, at as usize))
    }

    /// Whether a segment whose size is found anew is there and has so many words.
    #[cold]
    #[inline(never)]
    fn has_words_of(&self, segment: u32, count: u64) -> bool
        ensures value { result
            ≡ (nat_lt segment (length self.now)
            && nat_le count (length (slice_index_or self.now segment []))) }
        ensures short { IsTrue result → count < 2 ^ 32 }
    {
        let bytes = self.bytes;
        let segment = u64::from(segment);
        segment < count_in(bytes) && count <= size_in(bytes, segment)
    }

    /// The word at a place of a segment that is found anew.
    #[cold]
    #[inline(never)]
    fn word_of(&self, segment: u32, index: u64) -> Option<u64>
        ensures { result ≡ word_at self.now segment index }
    {
        let bytes = self.bytes;
        let count = count_in(bytes);
        let segment = u64::from(segment);
        if segment >= count || index >= size_in(bytes, segment) {
            return None;
        }
        let at = table_len_for(count) + 8 * (words_before(bytes, segment) + index);
        Some(word_from(bytes, at as usize))
    }
}
