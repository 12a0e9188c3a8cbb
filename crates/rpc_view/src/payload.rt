//! Payloads: a capability table, and where the content has capabilities.

ghost use Rattle.rpc_view.specs.Reading.{run};
ghost use Rattle.rpc_view.specs.Glue.{RunsInMemory, sections_of};
ghost use Rattle.rpc_view.specs.Message.{payload_in};

use crate::layouts::{PAYLOAD_CAP_TABLE, PAYLOAD_CONTENT};
use crate::message::Payload;
use crate::structs::{fields_of, list_in, struct_in};
use crate::table::descriptors;
use crate::view_error::ViewError;
use cap_frame::Frame;
use cap_reader::{Limits, StructAt};
use std::alloc::Global;

/// The payload at a pointer of a struct.
#[tactic(auto, using(crate::proofs::Running::run_then), unfolding(crate::specs::Message::payload_in, cap_reader::specs::Reading::pay_for, cap_reader::specs::Reading::and_then))]
#[inline]
pub fn payload(
    alloc: Global,
    frame: &Frame,
    place: &Option<StructAt>,
    n: u16,
    limits: &mut Limits,
) -> Result<Payload, ViewError>
    ensures { RunsInMemory (λ payload. payload) result limits.new.words
        (run (payload_in ((sections_of frame.now place.now).child n)) limits.old.words) }
{
    let payload = struct_in(frame, place, n, limits)?;
    let table = list_in(frame, &payload, PAYLOAD_CAP_TABLE, limits)?;
    Ok(Payload {
        descriptors: descriptors(alloc, frame, &table, limits)?,
        fields: fields_of(alloc, frame, &payload, PAYLOAD_CONTENT, limits)?,
    })
}
