//! Why the pointers of a frame can't be followed.

ghost use Rattle.std.specs.Prelude.{◌≡◌};
ghost use Rattle.cap_reader.specs.declared.read_error.ReadError.TheVariants.{OutOfMemory};

use std::alloc::{AllocError, AllocFailed};

/// Why the pointers of a frame can't be followed: the first fault that reading one pointer meets. Its pads are followed
/// first (`NoSegment`, `OutOfSegment`, `BadPad`); then come `Reserved`, `WrongKind`, `OutOfSegment` of what it leads
/// to, `NoZero`, `TooDeep` and `TooMuch` (encoding specification, "Structs", "Lists", "Inter-Segment Pointers", "Security
/// Considerations").
#[derive(Clone, Copy, Debug, PartialEq, Eq)]
pub enum ReadError {
    /// A pad, or what a pointer leads to, leaves its segment, or a list's elements need more words than the list has.
    OutOfSegment,
    /// A far pointer names a segment that isn't there.
    NoSegment,
    /// A pad of one word is a far pointer, or a pad of two words isn't a far pointer to one word with a tag behind it.
    BadPad,
    /// Not the kind of pointer that is asked for.
    WrongKind,
    /// A list of bytes is asked for as a text, and has no zero at its end. [`text_field`](crate::text_field) alone
    /// answers this.
    NoZero,
    /// Neither a struct, a list, a far nor a capability pointer: bits that are kept for later.
    Reserved,
    /// A struct is deeper than the limit.
    TooDeep,
    /// The visits cost more words than the limit.
    TooMuch,
    /// A growth of memory was refused. [`fields`](crate::fields) alone answers this: nothing else here takes memory.
    OutOfMemory,
}

impl From<AllocError> for ReadError {
    ghost from_gives = { λ _ e. e ≡ OutOfMemory };

    fn from(_e: AllocError) -> ReadError {
        ReadError::OutOfMemory
    }
}

impl<T: Drop> From<AllocFailed<T>> for ReadError {
    ghost from_gives = { λ _ e. e ≡ OutOfMemory };

    fn from(_e: AllocFailed<T>) -> ReadError {
        ReadError::OutOfMemory
    }
}
