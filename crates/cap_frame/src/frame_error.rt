//! Why bytes aren't a frame.

/// Why bytes aren't a frame of the stream framing (encoding specification, "Serialization Over a Stream"): the first
/// fault that is met.
#[derive(Clone, Copy, Debug, PartialEq, Eq)]
pub enum FrameError {
    /// The count of segments, their sizes, the padding or a segment passes the end of the bytes.
    Short,
    /// More than 512 segments, the most that are read here.
    TooManySegments,
    /// Bytes stand after the last segment.
    Trailing,
    /// The first segment has no words, so there is no root pointer.
    NoRoot,
}
