//! Why a message aborts or ends a call or a promise: the reason of its Exception.
//!
//! It stands on `cap_reader`, by which a frame is read within limits, on `rpc_view`, whose layouts of rpc.capnp its
//! definitions cite, and on `vat_log`, whose records have frames. Which reason a message gives is said in `specs/Reasons.antt`, and how its bytes are printed in
//! `specs/Printed.antt`. [`read_reason`] answers exactly that reason, and none where it can't be read, so that no message
//! and no verdict depends on one; [`record_reason`] does so of a record's frame.
#![tactic(auto)]

mod laws;
mod of_record;
mod printed;
mod reason;
mod reason_reading;

pub use laws::{only_exceptions_have_reasons, printed_is_printable, reasons_are_short};
pub use of_record::record_reason;
pub use printed::Printed;
pub use reason::Reason;
pub use reason_reading::read_reason;
