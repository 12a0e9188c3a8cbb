//! What is open at the end of a log.

use left_open::{Open, open_at_end};
use past_records::decoded;
use std::alloc::{AllocError, Global};
use vat_log::VatLog;
use vat_view::DecodedRecord;

/// The records of a log as they are judged. None where a frame isn't read.
pub fn events_of(alloc: Global, log: &VatLog) -> Result<Option<Vec<DecodedRecord>>, AllocError> {
    let mut events = Vec::new(alloc);
    for at in 0..log.len() {
        let Some(event) = decoded(alloc, log, at)? else {
            return Ok(None);
        };
        events.push(event)?;
    }
    Ok(Some(events))
}

/// What is open at the end of a log. None where a frame isn't read, or the log isn't good.
pub fn open_in(alloc: Global, log: &VatLog) -> Result<Option<Vec<Open>>, AllocError> {
    match events_of(alloc, log)? {
        Some(events) => open_at_end(alloc, events.as_slice()),
        None => Ok(None),
    }
}
