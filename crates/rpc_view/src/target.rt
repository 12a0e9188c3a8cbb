//! What a message is meant for.

ghost use Rattle.rpc_view.specs.Reading.{run};
ghost use Rattle.rpc_view.specs.Glue.{RunsInMemory, sections_of};
ghost use Rattle.rpc_view.specs.Message.{target_in};

use crate::layouts::{TARGET_IMPORTED, TARGET_PROMISED, TARGET_TAG};
use crate::message::Target;
use crate::promised::promised_answer;
use crate::structs::{first_word, struct_in, u16_within, u32_within};
use crate::view_error::ViewError;
use cap_frame::Frame;
use cap_reader::{Limits, StructAt};
use std::alloc::Global;

/// The target at a pointer of a struct.
#[tactic(auto, using(crate::proofs::Running::run_then), unfolding(crate::specs::Message::target_in, cap_reader::specs::Reading::pay_for, cap_reader::specs::Reading::and_then))]
#[inline(always)]
pub fn target(
    alloc: Global,
    frame: &Frame,
    place: &Option<StructAt>,
    n: u16,
    limits: &mut Limits,
) -> Result<Target, ViewError>
    ensures { RunsInMemory (λ target. target) result limits.new.words
        (run (target_in ((sections_of frame.now place.now).child n)) limits.old.words) }
{
    let target = struct_in(frame, place, n, limits)?;
    let word = first_word(frame, &target);
    match u16_within(word, TARGET_TAG) {
        0 => Ok(Target::Imported(u32_within(word, TARGET_IMPORTED))),
        1 => {
            let (question, path) = promised_answer(alloc, frame, &target, TARGET_PROMISED, limits)?;
            Ok(Target::Promised(question, path))
        }
        _ => Err(ViewError::BadTag),
    }
}
