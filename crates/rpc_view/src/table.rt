//! Descriptors of capabilities, and tables of them.

ghost use Rattle.std.specs.Prelude.{◌≡◌, ◌<◌, ◌++◌, ◌∷◌, [], OnOk};
ghost use Rattle.cap_reader.specs.Places.{elements_at, list_len};
ghost use Rattle.rpc_view.specs.Reading.{run};
ghost use Rattle.rpc_view.specs.Glue.{RunsInMemory, sections_of, elements_of};
ghost use Rattle.rpc_view.specs.Message.{descriptor_in, described_in, descriptors_in};

use crate::layouts::{DESCRIPTOR_ANSWER, DESCRIPTOR_NUMBER, DESCRIPTOR_TAG};
use crate::message::{Descriptor, Descriptors};
use crate::promised::promised_answer;
use crate::structs::{element_in, first_word, struct_in, u16_within, u32_within};
use crate::view_error::{Outside, ViewError};
use cap_frame::Frame;
use cap_reader::{Limits, ListAt, StructAt};
use std::alloc::{AllocError, Global};

/// What a descriptor says.
#[tactic(auto, using(crate::proofs::Running::run_then), unfolding(crate::specs::Message::described_in, cap_reader::specs::Reading::pay_for, cap_reader::specs::Reading::and_then))]
#[inline]
fn read_descriptor(
    alloc: Global,
    frame: &Frame,
    place: &Option<StructAt>,
    limits: &mut Limits,
) -> Result<Descriptor, ViewError>
    ensures { RunsInMemory (λ found. found) result limits.new.words
        (run (described_in (sections_of frame.now place.now)) limits.old.words) }
{
    let word = first_word(frame, place);
    let number = u32_within(word, DESCRIPTOR_NUMBER);
    match u16_within(word, DESCRIPTOR_TAG) {
        0 => Ok(Descriptor::NoCap),
        1 => Ok(Descriptor::SenderHosted(number)),
        2 => Ok(Descriptor::SenderPromise(number)),
        3 => Ok(Descriptor::ReceiverHosted(number)),
        4 => {
            let (question, path) = promised_answer(alloc, frame, place, DESCRIPTOR_ANSWER, limits)?;
            Ok(Descriptor::ReceiverAnswer(question, path))
        }
        5 => Err(ViewError::Outside(Outside::Level)),
        _ => Err(ViewError::BadTag),
    }
}

/// The descriptor at a pointer of a struct.
#[tactic(auto, using(crate::proofs::Running::run_then), unfolding(crate::specs::Message::descriptor_in, cap_reader::specs::Reading::pay_for, cap_reader::specs::Reading::and_then))]
pub fn descriptor(
    alloc: Global,
    frame: &Frame,
    place: &Option<StructAt>,
    n: u16,
    limits: &mut Limits,
) -> Result<Descriptor, ViewError>
    ensures { RunsInMemory (λ found. found) result limits.new.words
        (run (descriptor_in ((sections_of frame.now place.now).child n)) limits.old.words) }
{
    let descriptor = struct_in(frame, place, n, limits)?;
    read_descriptor(alloc, frame, &descriptor, limits)
}

/// The descriptor at a place of a table.
#[tactic(auto, using(crate::proofs::Running::run_then), unfolding(crate::specs::Message::descriptor_in, cap_reader::specs::Reading::pay_for, cap_reader::specs::Reading::and_then))]
fn entry(
    alloc: Global,
    frame: &Frame,
    table: &ListAt,
    i: u32,
    limits: &mut Limits,
) -> Result<Descriptor, ViewError>
    requires { i < list_len table.now }
    ensures { RunsInMemory (λ found. found) result limits.new.words
        (run (descriptor_in ((elements_at frame.now table.now).element i)) limits.old.words) }
{
    let descriptor = element_in(frame, table, i, limits)?;
    read_descriptor(alloc, frame, &descriptor, limits)
}

/// Puts a descriptor behind those read. Room is made for one, and then for as many again as there are: most tables have
/// one, and what a frame claims to have is no reason to make room.
fn put(items: &mut Vec<Descriptor>, descriptor: Descriptor) -> Result<(), AllocError>
    ensures { OnOk result (items.new.items ≡ items.old.items ++ descriptor ∷ []) }
{
    if items.len() == items.capacity() {
        items.reserve_exact(items.len().max(1))?;
    }
    items.push(descriptor)?;
    Ok(())
}

/// The descriptors of a table, one after another, each with what it holds.
#[tactic(auto, using(crate::proofs::Loops::no_front), unfolding(crate::specs::Message::descriptors_in))]
fn entries(
    alloc: Global,
    frame: &Frame,
    table: &ListAt,
    limits: &mut Limits,
) -> Result<Descriptors, ViewError>
    ensures { RunsInMemory (λ found. found) result limits.new.words
        (run (descriptors_in (elements_at frame.now table.now)) limits.old.words) }
{
    let mut items = Vec::new(alloc);
    for i in 0..table.len() {
        put(&mut items, entry(alloc, frame, table, i, limits)?)?;
    }
    Ok(Descriptors::new(items))
}

/// The descriptors of a table that was looked for.
#[tactic(auto, unfolding(crate::specs::Message::descriptors_in, cap_reader::specs::Reading::each, cap_reader::specs::Reading::pay_for))]
pub fn descriptors(
    alloc: Global,
    frame: &Frame,
    table: &Option<ListAt>,
    limits: &mut Limits,
) -> Result<Descriptors, ViewError>
    ensures { RunsInMemory (λ found. found) result limits.new.words
        (run (descriptors_in (elements_of frame.now table.now)) limits.old.words) }
{
    match table {
        Some(table) => entries(alloc, frame, table, limits),
        None => Ok(Descriptors::new(Vec::new(alloc))),
    }
}
