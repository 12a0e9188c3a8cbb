//! The level 1 messages that frames carry.
//!
//! It stands on `cap_reader`, whose limits and faults of pointers it lends, and on `cap_frame`. Which message a frame
//! is says `specs/Message.antt`, by the table of layouts in `specs/Layouts.antt`. [`read_message`] and [`read_bytes`]
//! answer exactly that message within the limits, by an edition of rpc.capnp, or the first refusal in the order of
//! reading. That limits never change a message, and that the later edition reads what the first one does, `laws`
//! promises.
#![tactic(auto)]

mod bodies;
mod edition;
mod laws;
mod layouts;
mod message;
mod payload;
mod promised;
mod reading;
mod structs;
mod table;
mod target;
mod view_error;

pub use cap_reader::{Fields, Limits, ReadError};
pub use edition::Edition;
pub use laws::{later_edition_reads_more, limits_change_no_message};
pub use message::{
    CallHead, Descriptor, Descriptors, Loopback, Outcome, Payload, Resolution, ReturnHead,
    RpcMessage, Target,
};
pub use reading::{read_bytes, read_message};
pub use view_error::{Outside, ViewError};
