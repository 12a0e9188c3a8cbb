//! The bodies of messages. The data of each is judged whole before its pointers are followed.

ghost use Rattle.std.specs.Prelude.{◌≡◌};
ghost use Rattle.rpc_view.specs.Reading.{run};
ghost use Rattle.rpc_view.specs.Glue.{RunsInMemory, sections_of};
ghost use Rattle.rpc_view.specs.Layouts.{return_tag};
ghost use Rattle.rpc_view.specs.Message.{bootstrap_in, called_in, is_beyond, call_in, outcome_in, returned_in, return_in, finish_in, resolve_in, release_in, disembargoed_in, disembargo_in};

use crate::edition::Edition;
use crate::layouts::{
    BOOTSTRAP_QUESTION, CALL_INTERFACE, CALL_METHOD, CALL_ONLY_PROMISE_PIPELINE, CALL_PARAMS,
    CALL_QUESTION, CALL_SEND_RESULTS_TO, CALL_TARGET, DISEMBARGO_NUMBER, DISEMBARGO_TAG,
    DISEMBARGO_TARGET, FINISH_QUESTION, FINISH_RELEASE_RESULT_CAPS, MESSAGE_BODY, RELEASE_COUNT,
    RELEASE_ID, RESOLVE_CAP, RESOLVE_PROMISE, RESOLVE_TAG, RETURN_ANSWER, RETURN_NO_FINISH_NEEDED,
    RETURN_RELEASE_PARAM_CAPS, RETURN_RESULTS, RETURN_TAG, RETURN_TAKE_FROM_OTHER_QUESTION,
};
use crate::message::{CallHead, Loopback, Outcome, Resolution, ReturnHead, RpcMessage};
use crate::payload::payload;
use crate::structs::{
    bit_of, bit_within, first_word, struct_in, u16_of, u16_within, u32_of, u32_within, u64_of,
};
use crate::table::descriptor;
use crate::target::target;
use crate::view_error::{Outside, ViewError};
use cap_frame::Frame;
use cap_reader::{Limits, StructAt};
use std::alloc::Global;

/// The Bootstrap behind a Message's pointer.
#[tactic(auto, using(crate::proofs::Running::run_then), unfolding(crate::specs::Message::bootstrap_in, cap_reader::specs::Reading::pay_for, cap_reader::specs::Reading::and_then))]
pub fn bootstrap(
    frame: &Frame,
    message: &Option<StructAt>,
    limits: &mut Limits,
) -> Result<RpcMessage, ViewError>
    ensures { RunsInMemory (λ found. found) result limits.new.words
        (run (bootstrap_in ((sections_of frame.now message.now).child 0)) limits.old.words) }
{
    let bootstrap = struct_in(frame, message, MESSAGE_BODY, limits)?;
    Ok(RpcMessage::Bootstrap {
        question: u32_of(frame, &bootstrap, BOOTSTRAP_QUESTION),
    })
}

/// What the pointers of a Call hold, whose first word was read.
#[tactic(auto, using(crate::proofs::Running::run_then), unfolding(crate::specs::Message::called_in, cap_reader::specs::Reading::pay_for, cap_reader::specs::Reading::and_then))]
fn read_call_parts(
    alloc: Global,
    frame: &Frame,
    call: &Option<StructAt>,
    word: u64,
    limits: &mut Limits,
) -> Result<RpcMessage, ViewError>
    requires { word ≡ (sections_of frame.now call.now).word 0 }
    ensures { RunsInMemory (λ found. found) result limits.new.words
        (run (called_in (sections_of frame.now call.now)) limits.old.words) }
{
    let target = target(alloc, frame, call, CALL_TARGET, limits)?;
    let params = payload(alloc, frame, call, CALL_PARAMS, limits)?;
    Ok(RpcMessage::Call {
        head: CallHead {
            question: u32_within(word, CALL_QUESTION),
            interface: u64_of(frame, call, CALL_INTERFACE),
            method: u16_within(word, CALL_METHOD),
            yourself: u16_within(word, CALL_SEND_RESULTS_TO) == 1,
        },
        target,
        params,
    })
}

/// Whether a field of the later edition is set in a message that is read by the first one.
#[inline(always)]
fn is_beyond(edition: Edition, field: bool) -> bool
    ensures { result ≡ is_beyond edition field }
{
    match edition {
        Edition::First => field,
        Edition::Later => false,
    }
}

/// The Call behind a Message's pointer.
#[tactic(auto, using(crate::proofs::Running::run_then), unfolding(crate::specs::Message::call_in, crate::specs::Message::unless_refused, cap_reader::specs::Reading::pay_for, cap_reader::specs::Reading::and_then))]
pub fn call(
    alloc: Global,
    frame: &Frame,
    message: &Option<StructAt>,
    limits: &mut Limits,
    edition: Edition,
) -> Result<RpcMessage, ViewError>
    ensures { RunsInMemory (λ found. found) result limits.new.words
        (run (call_in edition ((sections_of frame.now message.now).child 0)) limits.old.words) }
{
    let call = struct_in(frame, message, MESSAGE_BODY, limits)?;
    let word = first_word(frame, &call);
    let send_results_to = u16_within(word, CALL_SEND_RESULTS_TO);
    if send_results_to > 2 {
        return Err(ViewError::BadTag);
    }
    if send_results_to == 2 {
        return Err(ViewError::Outside(Outside::Level));
    }
    if is_beyond(edition, bit_of(frame, &call, CALL_ONLY_PROMISE_PIPELINE)) {
        return Err(ViewError::Outside(Outside::LaterField));
    }
    read_call_parts(alloc, frame, &call, word, limits)
}

/// What a Return of this tag says of its call: results, or what stands in their place.
#[tactic(auto, using(crate::proofs::Running::run_then), unfolding(crate::specs::Message::outcome_in, cap_reader::specs::Reading::pay_for, cap_reader::specs::Reading::and_then))]
fn outcome(
    alloc: Global,
    frame: &Frame,
    answer: &Option<StructAt>,
    tag: u16,
    limits: &mut Limits,
) -> Result<Outcome, ViewError>
    requires { tag ≡ return_tag (sections_of frame.now answer.now) }
    ensures { RunsInMemory (λ found. found) result limits.new.words
        (run (outcome_in (sections_of frame.now answer.now)) limits.old.words) }
{
    match tag {
        0 => Ok(Outcome::Results(payload(alloc, frame, answer, RETURN_RESULTS, limits)?)),
        1 => Ok(Outcome::Exception),
        2 => Ok(Outcome::Canceled),
        3 => Ok(Outcome::Elsewhere),
        4 => {
            let question = u32_of(frame, answer, RETURN_TAKE_FROM_OTHER_QUESTION);
            Ok(Outcome::TakeFrom(question))
        }
        _ => Err(ViewError::BadTag),
    }
}

/// What the pointer of a Return holds, whose first word was read.
#[tactic(auto, using(crate::proofs::Running::run_then), unfolding(crate::specs::Message::returned_in, cap_reader::specs::Reading::pay_for, cap_reader::specs::Reading::and_then))]
fn read_return_parts(
    alloc: Global,
    frame: &Frame,
    answer: &Option<StructAt>,
    word: u64,
    limits: &mut Limits,
) -> Result<RpcMessage, ViewError>
    requires { word ≡ (sections_of frame.now answer.now).word 0 }
    ensures { RunsInMemory (λ found. found) result limits.new.words
        (run (returned_in (sections_of frame.now answer.now)) limits.old.words) }
{
    let outcome = outcome(alloc, frame, answer, u16_within(word, RETURN_TAG), limits)?;
    Ok(RpcMessage::Return {
        head: ReturnHead {
            answer: u32_within(word, RETURN_ANSWER),
            release_param_caps: !bit_within(word, RETURN_RELEASE_PARAM_CAPS),
            light: bit_within(word, RETURN_NO_FINISH_NEEDED),
        },
        outcome,
    })
}

/// The Return behind a Message's pointer.
#[tactic(auto, using(crate::proofs::Running::run_then), unfolding(crate::specs::Message::return_in, crate::specs::Message::unless_refused, cap_reader::specs::Reading::pay_for, cap_reader::specs::Reading::and_then))]
pub fn answer(
    alloc: Global,
    frame: &Frame,
    message: &Option<StructAt>,
    limits: &mut Limits,
    edition: Edition,
) -> Result<RpcMessage, ViewError>
    ensures { RunsInMemory (λ found. found) result limits.new.words
        (run (return_in edition ((sections_of frame.now message.now).child 0)) limits.old.words) }
{
    let answer = struct_in(frame, message, MESSAGE_BODY, limits)?;
    let word = first_word(frame, &answer);
    let tag = u16_within(word, RETURN_TAG);
    if tag > 5 {
        return Err(ViewError::BadTag);
    }
    if tag == 5 {
        return Err(ViewError::Outside(Outside::Level));
    }
    if is_beyond(edition, bit_within(word, RETURN_NO_FINISH_NEEDED)) {
        return Err(ViewError::Outside(Outside::LaterField));
    }
    read_return_parts(alloc, frame, &answer, word, limits)
}

/// The Finish behind a Message's pointer.
#[tactic(auto, using(crate::proofs::Running::run_then), unfolding(crate::specs::Message::finish_in, cap_reader::specs::Reading::pay_for, cap_reader::specs::Reading::and_then))]
pub fn finish(
    frame: &Frame,
    message: &Option<StructAt>,
    limits: &mut Limits,
) -> Result<RpcMessage, ViewError>
    ensures { RunsInMemory (λ found. found) result limits.new.words
        (run (finish_in ((sections_of frame.now message.now).child 0)) limits.old.words) }
{
    let finish = struct_in(frame, message, MESSAGE_BODY, limits)?;
    let word = first_word(frame, &finish);
    Ok(RpcMessage::Finish {
        question: u32_within(word, FINISH_QUESTION),
        release_result_caps: !bit_within(word, FINISH_RELEASE_RESULT_CAPS),
    })
}

/// The Resolve behind a Message's pointer.
#[tactic(auto, using(crate::proofs::Running::run_then), unfolding(crate::specs::Message::resolve_in, cap_reader::specs::Reading::pay_for, cap_reader::specs::Reading::and_then))]
pub fn resolve(
    alloc: Global,
    frame: &Frame,
    message: &Option<StructAt>,
    limits: &mut Limits,
) -> Result<RpcMessage, ViewError>
    ensures { RunsInMemory (λ found. found) result limits.new.words
        (run (resolve_in ((sections_of frame.now message.now).child 0)) limits.old.words) }
{
    let resolve = struct_in(frame, message, MESSAGE_BODY, limits)?;
    let promise = u32_of(frame, &resolve, RESOLVE_PROMISE);
    let resolution = match u16_of(frame, &resolve, RESOLVE_TAG) {
        0 => Resolution::Cap(descriptor(alloc, frame, &resolve, RESOLVE_CAP, limits)?),
        1 => Resolution::Exception,
        _ => return Err(ViewError::BadTag),
    };
    Ok(RpcMessage::Resolve {
        promise,
        resolution,
    })
}

/// The Release behind a Message's pointer.
#[tactic(auto, using(crate::proofs::Running::run_then), unfolding(crate::specs::Message::release_in, cap_reader::specs::Reading::pay_for, cap_reader::specs::Reading::and_then))]
pub fn release(
    frame: &Frame,
    message: &Option<StructAt>,
    limits: &mut Limits,
) -> Result<RpcMessage, ViewError>
    ensures { RunsInMemory (λ found. found) result limits.new.words
        (run (release_in ((sections_of frame.now message.now).child 0)) limits.old.words) }
{
    let release = struct_in(frame, message, MESSAGE_BODY, limits)?;
    let word = first_word(frame, &release);
    Ok(RpcMessage::Release {
        id: u32_within(word, RELEASE_ID),
        count: u32_within(word, RELEASE_COUNT),
    })
}

/// What the pointer of a Disembargo holds.
#[tactic(auto, using(crate::proofs::Running::run_then), unfolding(crate::specs::Message::disembargoed_in, cap_reader::specs::Reading::pay_for, cap_reader::specs::Reading::and_then))]
#[inline]
fn read_disembargo_parts(
    alloc: Global,
    frame: &Frame,
    disembargo: &Option<StructAt>,
    loopback: Loopback,
    limits: &mut Limits,
) -> Result<RpcMessage, ViewError>
    ensures { RunsInMemory (λ found. found) result limits.new.words
        (run (disembargoed_in (sections_of frame.now disembargo.now) loopback) limits.old.words) }
{
    let target = target(alloc, frame, disembargo, DISEMBARGO_TARGET, limits)?;
    Ok(RpcMessage::Disembargo {
        number: u32_of(frame, disembargo, DISEMBARGO_NUMBER),
        loopback,
        target,
    })
}

/// The Disembargo behind a Message's pointer.
#[tactic(auto, using(crate::proofs::Running::run_then), unfolding(crate::specs::Message::disembargo_in, cap_reader::specs::Reading::pay_for, cap_reader::specs::Reading::and_then))]
pub fn disembargo(
    alloc: Global,
    frame: &Frame,
    message: &Option<StructAt>,
    limits: &mut Limits,
) -> Result<RpcMessage, ViewError>
    ensures { RunsInMemory (λ found. found) result limits.new.words
        (run (disembargo_in ((sections_of frame.now message.now).child 0)) limits.old.words) }
{
    let disembargo = struct_in(frame, message, MESSAGE_BODY, limits)?;
    match u16_of(frame, &disembargo, DISEMBARGO_TAG) {
        0 => read_disembargo_parts(alloc, frame, &disembargo, Loopback::Sender, limits),
        1 => read_disembargo_parts(alloc, frame, &disembargo, Loopback::Receiver, limits),
        2..=3 => Err(ViewError::Outside(Outside::Level)),
        _ => Err(ViewError::BadTag),
    }
}
