//! What one record does to the numbers of its connection.

ghost use Rattle.std.specs.Prelude.{◌≡◌, [], IfOk, Some, if◌then◌else◌};
ghost use Rattle.std.specs.List.{filter_map};
ghost use Rattle.decoded_records.specs.Questions.{question_opened, question_returned, question_returned_lightly, question_finished, question_released, question_taken, asks_elsewhere, noted_call};
ghost use Rattle.decoded_records.specs.Lives.{descriptors_of, descriptors, number_introduced, is_promised, promise_resolved};
ghost use Rattle.decoded_records.specs.Views.{references};
ghost use Rattle.decoded_records.specs.Bindings.{new_references};
ghost use Rattle.decoded_records.specs.Loopbacks.{receiver_loopback};
ghost use Rattle.decoded_records.specs.Glue.Origins.{is_cap, origin_by, origins_from};
ghost use Rattle.decoded_records.specs.Glue.Parts.{has_message};

use crate::decoded::DecodedRecord;
use crate::origin::Origin;
use crate::short_list::ShortList;
use crate::table_key::TableKey;
use crate::table_keys::TableKeys;
use rpc_view::{CallHead, Descriptor, Loopback, Outcome, Resolution, ReturnHead, RpcMessage};
use std::alloc::{AllocError, Global};
use std::slice;

/// The question that a record opens.
pub fn question_opened(event: &DecodedRecord) -> Option<TableKey>
    ensures { result ≡ question_opened event.now }
{
    match event {
        DecodedRecord::Wire {
            sent,
            connection,
            message: RpcMessage::Bootstrap { question: number }
            | RpcMessage::Call {
                head: CallHead {
                    question: number,
                    ..
                },
                ..
            },
            ..
        } => Some(TableKey::of_sender(*sent, *connection, *number)),
        _ => None,
    }
}

/// The question that a record returns.
pub fn question_returned(event: &DecodedRecord) -> Option<TableKey>
    ensures { result ≡ question_returned event.now }
{
    match event {
        DecodedRecord::Wire {
            sent,
            connection,
            message: RpcMessage::Return {
                head: ReturnHead { answer: number, .. },
                ..
            },
            ..
        } => Some(TableKey::of_receiver(*sent, *connection, *number)),
        _ => None,
    }
}

/// The question that a record returns lightly: by a Return that says that no Finish is needed (rpc.capnp,
/// `Return.noFinishNeeded`).
pub fn question_returned_lightly(event: &DecodedRecord) -> Option<TableKey>
    ensures { result ≡ question_returned_lightly event.now }
{
    match event {
        DecodedRecord::Wire {
            sent,
            connection,
            message: RpcMessage::Return {
                head: ReturnHead {
                    answer: number,
                    light: true,
                    ..
                },
                ..
            },
            ..
        } => Some(TableKey::of_receiver(*sent, *connection, *number)),
        _ => None,
    }
}

/// The question that a record finishes.
pub fn question_finished(event: &DecodedRecord) -> Option<TableKey>
    ensures { result ≡ question_finished event.now }
{
    match event {
        DecodedRecord::Wire {
            sent,
            connection,
            message: RpcMessage::Finish {
                question: number,
                ..
            },
            ..
        } => Some(TableKey::of_sender(*sent, *connection, *number)),
        _ => None,
    }
}

/// The question whose results a record gives back.
pub fn question_released(event: &DecodedRecord) -> Option<TableKey>
    ensures { result ≡ question_released event.now }
{
    match event {
        DecodedRecord::Wire {
            sent,
            connection,
            message: RpcMessage::Finish {
                question: number,
                release_result_caps: true,
            },
            ..
        } => Some(TableKey::of_sender(*sent, *connection, *number)),
        _ => None,
    }
}

/// The question whose results a record takes: a Return with takeFromOtherQuestion names one of its own sender's
/// questions.
pub fn question_taken(event: &DecodedRecord) -> Option<TableKey>
    ensures { result ≡ question_taken event.now }
{
    match event {
        DecodedRecord::Wire {
            sent,
            connection,
            message: RpcMessage::Return {
                outcome: Outcome::TakeFrom(taken),
                ..
            },
            ..
        } => Some(TableKey::of_sender(*sent, *connection, *taken)),
        _ => None,
    }
}

/// Whether a record is a Call whose results are to be sent elsewhere: sendResultsTo is yourself.
pub fn asks_elsewhere(event: &DecodedRecord) -> bool
    ensures { result ≡ asks_elsewhere event.now }
{
    match event {
        DecodedRecord::Wire {
            message: RpcMessage::Call {
                head: CallHead { yourself, .. },
                ..
            },
            ..
        } => *yourself,
        _ => false,
    }
}

/// The promise that a record resolves.
pub fn promise_resolved(event: &DecodedRecord) -> Option<TableKey>
    ensures { result ≡ promise_resolved event.now }
{
    match event {
        DecodedRecord::Wire {
            sent,
            connection,
            message: RpcMessage::Resolve {
                promise: number,
                ..
            },
            ..
        } => Some(TableKey::of_sender(*sent, *connection, *number)),
        _ => None,
    }
}

/// The call noted beside a record, 0 where none is.
pub fn noted_call(event: &DecodedRecord) -> u64
    ensures { result ≡ noted_call event.now }
{
    match event {
        DecodedRecord::Wire { call, .. } => *call,
        _ => 0,
    }
}

/// Whether a record has a message.
pub fn has_message(event: &DecodedRecord) -> bool
    ensures { result ≡ has_message event.now }
{
    matches!(event, DecodedRecord::Wire { .. })
}

/// The descriptors of a message, by place, counted from 0; a Resolve's stands at place 0.
pub fn descriptors_of(message: &RpcMessage) -> &[Descriptor]
    ensures { result.now ≡ descriptors_of message.now }
{
    match message {
        RpcMessage::Call { params, .. } => params.descriptors.as_slice(),
        RpcMessage::Return {
            outcome: Outcome::Results(payload),
            ..
        } => payload.descriptors.as_slice(),
        RpcMessage::Resolve {
            resolution: Resolution::Cap(descriptor),
            ..
        } => slice::from_ref(descriptor),
        _ => &[],
    }
}

/// The descriptors of a record.
pub fn descriptors(event: &DecodedRecord) -> &[Descriptor]
    ensures { result.now ≡ descriptors event.now }
{
    match event {
        DecodedRecord::Wire { message, .. } => descriptors_of(message),
        _ => &[],
    }
}

/// The number that a descriptor of a record introduces.
pub fn number_introduced(event: &DecodedRecord, descriptor: &Descriptor) -> Option<TableKey>
    ensures { result ≡ number_introduced event.now descriptor.now }
{
    match (event, descriptor) {
        (
            DecodedRecord::Wire {
                sent,
                connection,
                ..
            },
            Descriptor::SenderHosted(number) | Descriptor::SenderPromise(number),
        ) => Some(TableKey::of_sender(*sent, *connection, *number)),
        _ => None,
    }
}

/// The numbers that a record introduces, in the order of their places, where its descriptors may be several.
fn several_introductions(alloc: Global, event: &DecodedRecord) -> Result<TableKeys, AllocError>
    ensures { IfOk result
        (λ ids. ids ≡ filter_map (number_introduced event.now) (descriptors event.now)) }
{
    let described = descriptors(event);
    let mut ids = Vec::new(alloc);
    for descriptor in described {
        if let Some(id) = number_introduced(event, descriptor) {
            ids.push(id)?;
        }
    }
    TableKeys::new(alloc, ids)
}

/// The numbers that a record introduces, in the order of their places; those of a late Return aren't counted. The only
/// error is that memory ran out.
pub fn introductions(
    alloc: Global,
    late: bool,
    event: &DecodedRecord,
) -> Result<TableKeys, AllocError>
    ensures { IfOk result
        (λ ids. ids ≡ (if late then []
        else filter_map (number_introduced event.now) (descriptors event.now))) }
{
    if late {
        return Ok(TableKeys::none());
    }
    match descriptors(event) {
        [] => Ok(TableKeys::none()),
        [descriptor] => Ok(match number_introduced(event, descriptor) {
            Some(id) => TableKeys::one(id),
            None => TableKeys::none(),
        }),
        _ => several_introductions(alloc, event),
    }
}

/// The references noted beside a record.
pub fn references(event: &DecodedRecord) -> &[u64]
    ensures { result.now ≡ references event.now }
{
    match event {
        DecodedRecord::Wire { references, .. } => references.as_slice(),
        _ => &[],
    }
}

/// Whether a descriptor isn't none.
pub fn is_cap(descriptor: &Descriptor) -> bool
    ensures { result ≡ is_cap descriptor.now }
{
    !matches!(descriptor, Descriptor::NoCap)
}

/// Whether a descriptor is a senderPromise.
pub fn is_promise(descriptor: &Descriptor) -> bool
    ensures { result ≡ is_promised (Some descriptor.now) }
{
    matches!(descriptor, Descriptor::SenderPromise(_))
}

/// What a descriptor at a place of a record introduces, with its origin, where so many references were noted before
/// it.
pub fn origin_by(
    number: usize,
    event: &DecodedRecord,
    place: usize,
    before: usize,
    descriptor: &Descriptor,
) -> Option<(TableKey, Origin)>
    ensures { result ≡ origin_by number event.now place before descriptor.now }
{
    let id = number_introduced(event, descriptor)?;
    let reference = references(event).get(before).copied();
    Some((
        id,
        Origin {
            number,
            place,
            promised: is_promise(descriptor),
            reference,
        },
    ))
}

/// What a record of this number introduces, with the origins.
fn many_origins(
    alloc: Global,
    number: usize,
    event: &DecodedRecord,
) -> Result<Vec<(TableKey, Origin)>, AllocError>
    ensures { IfOk result
        (λ list. list.items ≡ origins_from number event.now 0 0 (descriptors event.now)) }
{
    let mut list = Vec::new(alloc);
    let mut before = 0;
    for (place, descriptor) in descriptors(event).iter().enumerate() {
        if let Some(origin) = origin_by(number, event, place, before, descriptor) {
            list.push(origin)?;
        }
        if is_cap(descriptor) {
            before += 1;
        }
    }
    Ok(list)
}

/// What a record of this number introduces, with the origins; a late Return's introductions aren't counted. Most records
/// have one descriptor at most, and then it takes no memory. The only error is that memory ran out.
pub fn origins(
    alloc: Global,
    late: bool,
    number: usize,
    event: &DecodedRecord,
) -> Result<ShortList<(TableKey, Origin)>, AllocError>
    ensures { IfOk result
        (λ list. list
        ≡ (if late then [] else origins_from number event.now 0 0 (descriptors event.now))) }
{
    if late {
        return Ok(ShortList::none());
    }
    match descriptors(event) {
        [] => Ok(ShortList::none()),
        [descriptor] => match origin_by(number, event, 0, 0, descriptor) {
            Some(origin) => Ok(ShortList::one(origin)),
            None => Ok(ShortList::none()),
        },
        _ => Ok(ShortList::new(many_origins(alloc, number, event)?)),
    }
}

/// The references that a record newly binds.
pub fn new_references(event: &DecodedRecord) -> &[u64]
    ensures { result.now ≡ new_references event.now }
{
    match event {
        DecodedRecord::Host { reference, .. }
        | DecodedRecord::Vow { reference }
        | DecodedRecord::Field { reference, .. } => slice::from_ref(reference),
        DecodedRecord::Wire {
            sent: false,
            references,
            ..
        } => references.as_slice(),
        _ => &[],
    }
}

/// The number that a record echoes.
pub fn receiver_loopback(event: &DecodedRecord) -> Option<TableKey>
    ensures { result ≡ receiver_loopback event.now }
{
    match event {
        DecodedRecord::Wire {
            sent,
            connection,
            message: RpcMessage::Disembargo {
                number,
                loopback: Loopback::Receiver,
                ..
            },
            ..
        } => Some(TableKey::of_receiver(*sent, *connection, *number)),
        _ => None,
    }
}
