//! What the messages that a vat sends say, and what stands at references and paths: by what is kept of the vat, and by the
//! facts of each record.

ghost use Rattle.std.specs.Prelude.{◌≡◌, Option, IfOk, option_map};
ghost use Rattle.std.specs.Option.{option_copied};
ghost use Rattle.call_trace.specs.Naming.{cap_at};
ghost use Rattle.call_trace.specs.Said.{caps_at_paths, say_call, say_return, say_taken, say_resolve};
ghost use Rattle.call_trace.specs.Glue.Ledgers.{naming_by_tables, view_in, call_name_in, cap_said, caps_said, call_of_question, kept_view, answered_in, resolve_said, return_said, message_said, sent_said, results_said, named_said};

use crate::records::vat_ledger::VatLedger;
use cap_frame::Path;
use rpc_view::{CallHead, Descriptor, Outcome, Payload, RpcMessage};
use run_model::{Cap, Caps, Message, Name, Plain, Results, Step};
use std::alloc::{AllocError, Global};
use vat_rules::RecordFacts;
use vat_view::{View, descriptors_of};

/// The view of these at a place, if one is there.
pub(crate) fn view_at(views: &[Option<View>], place: usize) -> Option<&View>
    ensures { option_copied result ≡ kept_view views.now place }
{
    views.get(place)?.as_ref()
}

/// The capability for which a descriptor stands that has this view.
fn cap_said(
    ledger: &VatLedger,
    steps: &[Step],
    descriptor: &Descriptor,
    view: Option<&View>,
) -> Result<Option<Cap>, AllocError>
    ensures { IfOk result
        (λ cap. cap ≡ cap_said (naming_by_tables steps.now ledger.now) descriptor.now
        (option_copied view.entry)) }
{
    match descriptor {
        Descriptor::NoCap => Ok(Some(Cap::Nothing)),
        _ => ledger.name_of_view(steps, view),
    }
}

/// The capabilities for which descriptors stand that have these views, where each has a name.
fn caps_said(
    alloc: Global,
    ledger: &VatLedger,
    steps: &[Step],
    descriptors: &[Descriptor],
    views: &[Option<View>],
) -> Result<Option<Caps>, AllocError>
    ensures { IfOk result
        (λ caps. caps ≡ caps_said (naming_by_tables steps.now ledger.now) views.now descriptors.now) }
{
    let mut caps = Vec::with_capacity(alloc, descriptors.len())?;
    for descriptor in descriptors {
        let view = view_at(views, caps.len());
        match cap_said(ledger, steps, descriptor, view)? {
            Some(cap) => caps.push(cap)?,
            None => return Ok(None),
        }
    }
    Ok(Some(Caps::new(caps)))
}

/// The capability at a place of these, if there is one, with its path.
fn given_at(caps: &[Cap], path: &Path, index: u32) -> Result<Option<(Path, Cap)>, AllocError>
    ensures { IfOk result
        (λ found. found ≡ option_map (λ c. (path.now, c)) (cap_at index caps.now)) }
{
    match caps.get(index as usize) {
        None | Some(Cap::Nothing) => Ok(None),
        Some(cap) => Ok(Some((path.copy()?, cap.copy()?))),
    }
}

/// The capabilities that stand at paths, each with its path: where there is one in the table.
fn caps_at_paths(alloc: Global, caps: &[Cap], fields: &[(Path, u32)]) -> Result<Results, AllocError>
    ensures { IfOk result (λ results. results ≡ caps_at_paths caps.now fields.now) }
{
    let mut results = Vec::with_capacity(alloc, fields.len())?;
    for (path, index) in fields {
        if let Some(found) = given_at(caps, path, *index)? {
            results.push(found)?;
        }
    }
    Ok(Results::new(results))
}

/// The call that a question stands for, by its view.
fn call_of_view(view: Option<&View>) -> Option<u64>
    ensures { result ≡ call_of_question (option_copied view.entry) }
{
    match view {
        Some(View::Field(call, _)) => Some(*call),
        _ => None,
    }
}

/// A Return with results that is sent, late or not.
fn say_results(
    alloc: Global,
    late: bool,
    payload: &Payload,
    call: Name,
    caps: Option<Caps>,
) -> Result<Option<Message>, AllocError>
    ensures { IfOk result (λ message. message ≡ say_return late payload.now.fields call caps) }
{
    if late {
        return Ok(Some(Message::Late(call)));
    }
    let Some(caps) = caps else {
        return Ok(None);
    };
    let results = caps_at_paths(alloc, caps.as_slice(), payload.fields.as_slice())?;
    Ok(Some(Message::Return {
        call,
        results,
        caps,
    }))
}

/// A Return that takes the results of a call and is sent, late or not.
fn say_taken(late: bool, call: Name, by: Option<Name>) -> Option<Message>
    ensures { result ≡ say_taken late call by }
{
    match (late, by) {
        (true, _) => Some(Message::Late(call)),
        (false, Some(by)) => Some(Message::Taken(call, by)),
        (false, None) => None,
    }
}

/// A Resolve of a promise that is sent.
fn say_resolve(promise: Cap, caps: &Caps) -> Result<Message, AllocError>
    ensures { IfOk result (λ message. message ≡ say_resolve promise caps.now) }
{
    match caps.as_slice().first() {
        None | Some(Cap::Nothing) => Ok(Message::Broken(promise)),
        Some(cap) => Ok(Message::Resolve(promise, cap.copy()?)),
    }
}

/// The name of the call that a question stands for, by its view.
fn call_answered(ledger: &VatLedger, view: Option<&View>) -> Option<Name>
    ensures { result ≡ answered_in (call_name_in ledger.now) (option_copied view.entry) }
{
    ledger.call(call_of_view(view)?)
}

/// A Call that is sent, where all that it names has a name.
fn call_said(
    ledger: &VatLedger,
    steps: &[Step],
    facts: &RecordFacts,
    call: u64,
    asked: (u64, u16),
    caps: Option<Caps>,
) -> Result<Option<Message>, AllocError>
    ensures { IfOk result
        (λ sent. sent ≡ say_call asked.0 asked.1 caps (call_name_in ledger.now call)
        (view_in steps.now ledger.now facts.now.target)) }
{
    let target = ledger.name_of_view(steps, facts.target())?;
    match (caps, ledger.call(call), target) {
        (Some(caps), Some(call), Some(target)) => {
            let (interface, method) = asked;
            Ok(Some(Message::Call {
                call,
                target,
                interface,
                method,
                caps,
            }))
        }
        _ => Ok(None),
    }
}

/// A Resolve that is sent, where all that it names has a name.
fn resolve_said(
    ledger: &VatLedger,
    steps: &[Step],
    facts: &RecordFacts,
    caps: Option<Caps>,
) -> Result<Option<Message>, AllocError>
    ensures { IfOk result
        (λ sent. sent ≡ resolve_said (view_in steps.now ledger.now facts.now.promise) caps) }
{
    let promise = ledger.name_of_view(steps, facts.promise())?;
    match (promise, caps) {
        (Some(promise), Some(caps)) => Ok(Some(say_resolve(promise, &caps)?)),
        _ => Ok(None),
    }
}

/// A Return that is sent, where all that it names has a name. `caps` is what its descriptors stand for.
fn return_said(
    alloc: Global,
    ledger: &VatLedger,
    facts: &RecordFacts,
    caps: Option<Caps>,
    outcome: &Outcome,
) -> Result<Option<Message>, AllocError>
    ensures { IfOk result
        (λ sent. sent ≡ return_said (call_name_in ledger.now) facts.now caps outcome.now) }
{
    let Some(call) = call_answered(ledger, facts.question()) else {
        return Ok(None);
    };
    match outcome {
        Outcome::Results(payload) => say_results(alloc, facts.is_late(), payload, call, caps),
        Outcome::Exception | Outcome::Canceled => Ok(Some(Message::Failed(call))),
        Outcome::Elsewhere => Ok(Some(Message::Elsewhere(call))),
        Outcome::TakeFrom(_) => {
            let by = call_answered(ledger, facts.taken());
            Ok(say_taken(facts.is_late(), call, by))
        }
    }
}

/// The message that a record sends, beside which this call is noted, where all that it names has a name. `caps` is what its
/// descriptors stand for.
fn message_said(
    alloc: Global,
    ledger: &VatLedger,
    steps: &[Step],
    facts: &RecordFacts,
    call: u64,
    caps: Option<Caps>,
    message: &RpcMessage,
) -> Result<Option<Message>, AllocError>
    ensures { IfOk result
        (λ sent. sent ≡ message_said
        (naming_by_tables steps.now ledger.now) facts.now call caps message.now) }
{
    match message {
        RpcMessage::Bootstrap { .. } => Ok(ledger.call(call).map(|name| Message::Boot(name))),
        RpcMessage::Call {
            head: CallHead {
                interface,
                method,
                ..
            },
            ..
        } => call_said(ledger, steps, facts, call, (*interface, *method), caps),
        RpcMessage::Return { outcome, .. } => return_said(alloc, ledger, facts, caps, outcome),
        RpcMessage::Resolve { .. } => resolve_said(ledger, steps, facts, caps),
        RpcMessage::Finish { .. } => Ok(Some(Message::Plain(Plain::Finish))),
        RpcMessage::Release { .. } => Ok(Some(Message::Plain(Plain::Release))),
        RpcMessage::Disembargo { .. } => Ok(Some(Message::Plain(Plain::Disembargo))),
        RpcMessage::Abort => Ok(Some(Message::Plain(Plain::Abort))),
    }
}

/// The same, with what the descriptors of the message stand for looked up.
pub(crate) fn sent_said(
    alloc: Global,
    ledger: &VatLedger,
    steps: &[Step],
    facts: &RecordFacts,
    call: u64,
    message: &RpcMessage,
) -> Result<Option<Message>, AllocError>
    ensures { IfOk result
        (λ sent. sent ≡ sent_said (naming_by_tables steps.now ledger.now) facts.now call message.now) }
{
    let caps = caps_said(alloc, ledger, steps, descriptors_of(message), facts.caps())?;
    message_said(alloc, ledger, steps, facts, call, caps, message)
}

/// The results of a call, where each has a name.
pub(crate) fn results_said(
    alloc: Global,
    ledger: &VatLedger,
    steps: &[Step],
    facts: &RecordFacts,
    results: &[(u64, Path)],
) -> Result<Option<Results>, AllocError>
    ensures { IfOk result
        (λ said. said ≡ results_said
        (naming_by_tables steps.now ledger.now) facts.now.references results.now) }
{
    let mut said = Vec::with_capacity(alloc, results.len())?;
    for (_, path) in results {
        let view = view_at(facts.references(), said.len());
        match ledger.name_of_view(steps, view)? {
            Some(cap) => said.push((path.copy()?, cap))?,
            None => return Ok(None),
        }
    }
    Ok(Some(Results::new(said)))
}

/// The capabilities that have these views, where each has a name.
pub(crate) fn named_said(
    alloc: Global,
    ledger: &VatLedger,
    steps: &[Step],
    views: &[Option<View>],
) -> Result<Option<Caps>, AllocError>
    ensures { IfOk result
        (λ caps. caps ≡ named_said (naming_by_tables steps.now ledger.now) views.now) }
{
    let mut caps = Vec::with_capacity(alloc, views.len())?;
    for view in views {
        match ledger.name_of_view(steps, view.as_ref())? {
            Some(cap) => caps.push(cap)?,
            None => return Ok(None),
        }
    }
    Ok(Some(Caps::new(caps)))
}
