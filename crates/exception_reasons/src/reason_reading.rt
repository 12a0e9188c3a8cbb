//! Reading the reason of a message.

ghost use Rattle.std.specs.Prelude.{◌≡◌, ◌%◌, take, IfOk};
ghost use Rattle.std.specs.Option.{option_map};
ghost use Rattle.cap_reader.specs.Tree.{root_tree};
ghost use Rattle.cap_reader.specs.Reading.{Runs, run};
ghost use Rattle.cap_reader.specs.Places.{sections_at, text_at, u16_in};
ghost use Rattle.exception_reasons.specs.Reasons.{exception_in, told_in, reason_in, longest, reason_of_bytes};

use crate::reason::Reason;
use bytes::Bytes;
use cap_frame::Frame;
use cap_reader::{Limits, ReadError, StructAt, TextAt, root, struct_field, text_field, u16_at};
use std::alloc::{AllocError, Global};

/// `Message`'s union.
const MESSAGE_TAG: u32 = 0;

/// The body, whichever member of `Message`'s union it is.
const MESSAGE_BODY: u16 = 0;

/// `Return`'s union.
const RETURN_TAG: u32 = 6;

/// `Resolve`'s union.
const RESOLVE_TAG: u32 = 4;

/// `Return.exception`, and `Resolve.exception`.
const BODY_EXCEPTION: u16 = 0;

/// `Exception.reason`.
const EXCEPTION_REASON: u16 = 0;

/// How many bytes of a reason are kept at most.
const LONGEST: u32 = 1024;

/// The reason of the Exception at a pointer of a struct.
#[tactic(auto, using(crate::proofs::Stepping::exception_refused, crate::proofs::Stepping::exception_null, crate::proofs::Stepping::exception_found))]
fn exception(
    frame: &Frame,
    place: &StructAt,
    n: u16,
    limits: &mut Limits,
) -> Result<Option<TextAt>, ReadError>
    ensures { Runs (λ found. option_map (text_at frame.now) found) result limits.new.words
        (run (exception_in ((sections_at frame.now place.now).child n)) limits.old.words) }
{
    match struct_field(frame, place, n, limits)? {
        Some(exception) => text_field(frame, &exception, EXCEPTION_REASON, limits),
        None => Ok(None),
    }
}

/// The reason of a message's body, whose union stands at a byte of its data.
#[tactic(auto, using(crate::proofs::Stepping::told_refused, crate::proofs::Stepping::told_null, crate::proofs::Stepping::told_found, crate::proofs::Stepping::told_other))]
fn told(
    frame: &Frame,
    message: &StructAt,
    tag: u32,
    limits: &mut Limits,
) -> Result<Option<TextAt>, ReadError>
    requires { tag % 2 ≡ 0 }
    ensures { Runs (λ found. option_map (text_at frame.now) found) result limits.new.words
        (run (told_in (λ body. u16_in tag body.word) ((sections_at frame.now message.now).child 0))
        limits.old.words) }
{
    match struct_field(frame, message, MESSAGE_BODY, limits)? {
        Some(body) => {
            if u16_at(frame, &body, tag) == 1 {
                exception(frame, &body, BODY_EXCEPTION, limits)
            } else {
                Ok(None)
            }
        }
        None => Ok(None),
    }
}

/// Where the reason of a frame's message stands.
#[tactic(auto, using(crate::proofs::Stepping::reason_refused, crate::proofs::Stepping::reason_goes), unfolding(crate::specs::Reasons::body_reason_in, cap_reader::specs::Reading::pay_for))]
fn reason_at(frame: &Frame, limits: &mut Limits) -> Result<Option<TextAt>, ReadError>
    ensures { Runs (λ found. option_map (text_at frame.now) found) result limits.new.words
        (run (reason_in (root_tree limits.old.depth frame.now)) limits.old.words) }
{
    let message = root(frame, limits)?;
    match u16_at(frame, &message, MESSAGE_TAG) {
        1 => exception(frame, &message, MESSAGE_BODY, limits),
        3 => told(frame, &message, RETURN_TAG, limits),
        5 => told(frame, &message, RESOLVE_TAG, limits),
        _ => Ok(None),
    }
}

/// The first bytes of a text.
fn copied(alloc: Global, frame: &Frame, text: &TextAt) -> Result<Reason, AllocError>
    ensures { IfOk result (λ reason. reason ≡ take longest (text_at frame.now text.now)) }
{
    let len = text.len().min(LONGEST);
    let mut bytes = Vec::with_capacity(alloc, len as usize)?;
    for i in 0..len {
        bytes.push(text.byte(frame, i))?;
    }
    Ok(Reason::new(bytes))
}

/// The reason that the message of a frame's bytes gives: that of an abort, of a Return with an exception, or of a
/// Resolve with one (rpc.capnp, `Exception.reason`). None for any other message, where the reason is null, and where it
/// can't be read within the limits: bytes that are no frame, a pointer that can't be followed, a text without its zero.
///
/// # Errors
///
/// That memory was refused, and no other. The same bytes may be asked again.
pub fn read_reason(
    alloc: Global,
    bytes: Bytes,
    limits: Limits,
) -> Result<Option<Reason>, AllocError>
    ensures { IfOk result (λ found. found ≡ reason_of_bytes bytes limits) }
{
    let Ok(frame) = Frame::read(bytes.as_slice()) else {
        return Ok(None);
    };
    let mut limits = limits;
    match reason_at(&frame, &mut limits) {
        Ok(Some(text)) => Ok(Some(copied(alloc, &frame, &text)?)),
        Ok(None) | Err(_) => Ok(None),
    }
}
