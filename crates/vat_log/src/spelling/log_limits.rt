//! What a log can hold at most.

/// References, results or path elements in one list.
pub(crate) const MAX_COUNT: usize = 1_048_576;

/// Bytes in one frame.
pub(crate) const MAX_FRAME: usize = 67_108_864;

/// Records in one log.
pub(crate) const MAX_RECORDS: usize = 4_294_967_295;
