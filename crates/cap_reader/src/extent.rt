//! Where words lie in the segments of a frame.

ghost use Rattle.std.specs.Prelude.{◌≡◌, ◌<◌, ◌^◌, ◌+◌, IsTrue, IfSome, slice_index};
ghost use Rattle.cap_reader.specs.Pointers.{words_of, has_words, extent as extent_in};

use cap_frame::Frame;

/// The word at a place, 0 where there is none.
#[inline(always)]
pub fn word_or_zero(frame: &Frame, segment: u32, at: u64) -> u64
    ensures { result ≡ slice_index (words_of frame.now segment) at }
{
    frame.word(segment, at).unwrap_or(0)
}

/// Whether the segment is there and has so many words.
#[inline(always)]
pub fn reaches(frame: &Frame, segment: u32, count: u64) -> bool
    ensures value { result ≡ has_words frame.now segment count }
    ensures short { IsTrue result → count < 2 ^ 32 }
{
    frame.has_words(segment, count)
}

/// The start, where that many words from it on lie in the segment.
#[tactic(auto, unfolding(crate::specs::Pointers::extent))]
#[inline(always)]
pub fn extent(frame: &Frame, segment: u32, start: Option<u64>, size: u64) -> Option<u32>
    ensures value { result ≡ extent_in frame.now segment start size }
    ensures short { IfSome result (λ at. at + size < 2 ^ 32) }
{
    let start = start?;
    if reaches(frame, segment, start.saturating_add(size)) {
        Some(start as u32)
    } else {
        None
    }
}
