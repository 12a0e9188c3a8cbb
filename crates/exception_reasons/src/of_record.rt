//! The reason that a record tells of.

ghost use Rattle.std.specs.Prelude.{◌≡◌, IfOk};
ghost use Rattle.exception_reasons.specs.Reasons.{reason_of_record};

use crate::reason::Reason;
use crate::reason_reading::read_reason;
use cap_reader::Limits;
use std::alloc::{AllocError, Global};
use vat_log::Body;

/// The reason that the message of a record gives, which sends or receives one, within the default limits. None of any other
/// record, and where [`read_reason`] gives none.
///
/// # Errors
///
/// That memory was refused, and no other. The same record may be asked again.
pub fn record_reason(alloc: Global, body: &Body) -> Result<Option<Reason>, AllocError>
    ensures { IfOk result (λ found. found ≡ reason_of_record body.now) }
{
    match body.frame() {
        Some(frame) => read_reason(alloc, frame.clone()?, Limits::default()),
        None => Ok(None),
    }
}
