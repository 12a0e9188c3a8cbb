//! What is found of two files.

use crate::wire_line::WireLine;
use std::sync::Arc;
use vat_log::VatLog;
use wire_cut::{Overtaking, Waiting};

/// The logs that were made of two files: of vat 1, who sent the first file, and of vat 2; their connection is 0. Both are
/// of version 3.
#[derive(Drop)]
pub struct WireLogs {
    /// The log of vat 1.
    pub log_of_a: Arc<VatLog>,
    /// The log of vat 2.
    pub log_of_b: Arc<VatLog>,
}

/// What is found of two files.
#[derive(Drop)]
pub struct WireAnswer {
    /// The line.
    pub line: WireLine,
    /// The two logs; none where a file isn't cut into frames, or a log is full.
    pub logs: Option<WireLogs>,
    /// The log that has as many records as a log may have, where that is why the line says too long.
    pub full: Option<Arc<VatLog>>,
    /// The frames of the first file, and of the second, that are whole.
    pub frames: [u64; 2],
    /// The bytes behind the last whole frame of the first file, and of the second.
    pub left: [u64; 2],
    /// Where the explanation stops: the message of the first end that waits, and of the second, and what each lacks.
    pub waiting: [Option<Waiting>; 2],
    /// Of each end the first two messages whose calls came in the other order, where the logs have two references for them.
    pub overtaking: [Option<Overtaking>; 2],
}
