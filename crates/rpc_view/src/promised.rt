//! Results of questions, which may be called before they are there.

ghost use Rattle.std.specs.Prelude.{◌<◌};
ghost use Rattle.cap_reader.specs.Places.{elements_at, list_len};
ghost use Rattle.rpc_view.specs.Reading.{run};
ghost use Rattle.rpc_view.specs.Glue.{RunsInMemory, sections_of, elements_of, optional_number};
ghost use Rattle.rpc_view.specs.Message.{operation_in, operations_in, promised_in};

use crate::layouts::{OPERATION_FIELD, OPERATION_TAG, PROMISED_QUESTION, PROMISED_TRANSFORM};
use crate::structs::{element_in, list_in, struct_in, u16_of, u32_of};
use crate::view_error::ViewError;
use cap_frame::{Frame, Path};
use cap_reader::{Limits, ListAt, StructAt};
use std::alloc::Global;

/// The pointer field to which an operation of a transform goes, None where it does nothing.
#[tactic(auto, using(crate::proofs::Running::run_then), unfolding(crate::specs::Message::operation_in, cap_reader::specs::Reading::pay_for, cap_reader::specs::Reading::and_then))]
fn operation(
    frame: &Frame,
    operations: &ListAt,
    i: u32,
    limits: &mut Limits,
) -> Result<Option<u16>, ViewError>
    requires { i < list_len operations.now }
    ensures { RunsInMemory optional_number result limits.new.words
        (run (operation_in ((elements_at frame.now operations.now).element i)) limits.old.words) }
{
    let operation = element_in(frame, operations, i, limits)?;
    match u16_of(frame, &operation, OPERATION_TAG) {
        0 => Ok(None),
        1 => Ok(Some(u16_of(frame, &operation, OPERATION_FIELD))),
        _ => Err(ViewError::BadTag),
    }
}

/// The path of a transform's operations.
#[tactic(auto, using(crate::proofs::Loops::no_front), unfolding(crate::specs::Message::operations_in))]
fn path_of(
    alloc: Global,
    frame: &Frame,
    operations: &ListAt,
    limits: &mut Limits,
) -> Result<Path, ViewError>
    ensures { RunsInMemory (λ path. path) result limits.new.words
        (run (operations_in (elements_at frame.now operations.now)) limits.old.words) }
{
    let mut numbers = Vec::new(alloc);
    for i in 0..operations.len() {
        if let Some(number) = operation(frame, operations, i, limits)? {
            numbers.push(number)?;
        }
    }
    Ok(Path::new(numbers)?)
}

/// The path of a transform.
#[tactic(auto, using(crate::proofs::Running::run_then), unfolding(crate::specs::Message::operations_in, cap_reader::specs::Reading::each, cap_reader::specs::Reading::pay_for, cap_reader::specs::Reading::and_then))]
fn transform(
    alloc: Global,
    frame: &Frame,
    operations: &Option<ListAt>,
    limits: &mut Limits,
) -> Result<Path, ViewError>
    ensures { RunsInMemory (λ path. path) result limits.new.words
        (run (operations_in (elements_of frame.now operations.now)) limits.old.words) }
{
    match operations {
        Some(operations) => path_of(alloc, frame, operations, limits),
        None => Ok(Path::new(Vec::new(alloc))?),
    }
}

/// The question and the path at a pointer of a struct.
#[tactic(auto, using(crate::proofs::Running::run_then), unfolding(crate::specs::Message::promised_in, cap_reader::specs::Reading::pay_for, cap_reader::specs::Reading::and_then))]
pub fn promised_answer(
    alloc: Global,
    frame: &Frame,
    place: &Option<StructAt>,
    n: u16,
    limits: &mut Limits,
) -> Result<(u32, Path), ViewError>
    ensures { RunsInMemory (λ answer. answer) result limits.new.words
        (run (promised_in ((sections_of frame.now place.now).child n)) limits.old.words) }
{
    let promised = struct_in(frame, place, n, limits)?;
    let operations = list_in(frame, &promised, PROMISED_TRANSFORM, limits)?;
    let path = transform(alloc, frame, &operations, limits)?;
    Ok((u32_of(frame, &promised, PROMISED_QUESTION), path))
}
