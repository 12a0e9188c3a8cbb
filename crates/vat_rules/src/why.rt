//! Why a stored record isn't judged whose frame isn't read as a message.

ghost use Rattle.std.specs.Prelude.{◌≡◌, IfOk};
ghost use Rattle.cap_reader.specs.declared.limits.Limits.{Limits};
ghost use Rattle.rpc_view.specs.Message.{message_of_bytes};
ghost use Rattle.rpc_view.specs.Reading.{Fails};
ghost use Rattle.vat_log.specs.declared.body.Body.{Body};
ghost use Rattle.decoded_records.specs.Past.{Past};
ghost use Rattle.decoded_records.specs.Decoding.{decoded_by};
ghost use Rattle.vat_rules.specs.Types.{Edition};
ghost use Rattle.vat_rules.specs.Audit.{reads_by, why_outside, why_of};
ghost use Rattle.vat_rules.specs.Glue.Taking.{IsRefused};

use crate::outcome::Why;
use crate::taking::Refusal;
use rpc_view::{Outside, ViewError};
use std::alloc::AllocError;

/// Why a record is outside whose message is outside of what is read.
fn why_outside(reason: Outside) -> Why
    ensures { result ≡ why_outside reason }
{
    match reason {
        Outside::Level => Why::Level,
        Outside::Unimplemented => Why::Unimplemented,
        Outside::LaterField => Why::LaterField,
    }
}

/// Why a record is outside whose frame isn't read as a message.
fn why_of(error: ViewError) -> Why
    ensures { result ≡ why_of error }
{
    match error {
        ViewError::Outside(reason) => why_outside(reason),
        _ => Why::Unread,
    }
}

/// Why a stored record isn't applied whose frame isn't read, or that memory ran out.
pub(crate) fn unread(error: ViewError) -> Result<Refusal, AllocError>
    ensures { (edition : Edition) (limits : Limits) (before : Past) (body : Body)
        → Fails error (decoded_by (λ bytes. message_of_bytes edition bytes limits) body)
        → IfOk result (IsRefused edition (reads_by edition limits) before body) }
{
    match error {
        ViewError::OutOfMemory => Err(AllocError),
        _ => Ok(Refusal::Outside(why_of(error))),
    }
}
