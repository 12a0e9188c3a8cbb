//! What a pointer leads to, once its pads are followed.

/// What a pointer leads to, once its pads are followed: where it begins, None before its segment.
#[derive(Clone, Copy, Debug)]
pub enum Pointee {
    /// All zeros.
    Null,
    /// The sizes of its data section and of its pointer section are in words.
    Struct {
        segment: u32,
        start: Option<u64>,
        data_words: u16,
        pointer_count: u16,
    },
    /// Element size 7 is composite, whose count is of words.
    List {
        segment: u32,
        start: Option<u64>,
        element_size: u8,
        count: u32,
    },
    /// An index into the capability table, counted from 0.
    Capability {
        index: u32,
    },
    /// Bits that are kept for later.
    Reserved,
}
