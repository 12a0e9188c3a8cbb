//! What is asked of numbers and records, by the tables.

ghost use Rattle.std.specs.Prelude.{◌≡◌, ◌≤◌, ◌<◌, ◌∷◌, [], count_by, map, Decides, IfOk};
ghost use Rattle.decoded_records.specs.Past.{same_id};
ghost use Rattle.vat_view.specs.Types.{TableKey};
ghost use Rattle.decoded_records.specs.Lives.{descriptors};
ghost use Rattle.number_tables.specs.Glue.QuestionTables.{question_at};
ghost use Rattle.number_tables.specs.Glue.LifeTables.{held_count_at};
ghost use Rattle.vat_view.specs.Glue.Tables.{bound_at, view_by};
ghost use Rattle.vat_view.specs.Glue.Asking.{targeted_by, let_go_of, given_by};

use crate::lookups::meaning::{field_of, view_of_number};
use crate::preconditions::key_counts::KeyCounts;
use crate::record::bindings::view_by;
use crate::record::introduced::Introduced;
use crate::tables::references::BoundReferences;
use decoded_records::{DecodedRecord, TableKey, View, descriptors};
use number_tables::{ExportsImports, Questions, given_back_by};
use rpc_view::{RpcMessage, Target};
use std::alloc::{AllocError, Global};

/// What a record's target stands for.
pub(crate) fn view_of_target(
    bound: &BoundReferences,
    lives: &ExportsImports,
    questions: &Questions,
    event: &DecodedRecord,
) -> Result<Option<View>, AllocError>
    ensures { IfOk result
        (λ v. v ≡ targeted_by (bound_at bound.now) lives.now
        (question_at questions.now) event.now) }
{
    let DecodedRecord::Wire {
        sent,
        connection,
        message: RpcMessage::Call { target, .. } | RpcMessage::Disembargo { target, .. },
        ..
    } = event
    else {
        return Ok(None);
    };
    match target {
        Target::Imported(n) => {
            let number = TableKey::of_receiver(*sent, *connection, *n);
            view_of_number(bound, lives, number)
        }
        Target::Promised(q, path) => {
            let question = TableKey::of_sender(*sent, *connection, *q);
            field_of(questions, question, path)
        }
    }
}

/// What the descriptors of a record stand for, by place, by the tables before it and what it introduces.
pub(crate) fn views_of_descriptors(
    alloc: Global,
    bound: &BoundReferences,
    lives: &ExportsImports,
    begun: &Introduced<'_>,
    questions: &Questions,
    event: &DecodedRecord,
) -> Result<Vec<Option<View>>, AllocError>
    ensures { IfOk result
        (λ list. list.items
        ≡ map (view_by (bound_at bound.now) lives.now begun.now
        (question_at questions.now) event.now) (descriptors event.now)) }
{
    let described = descriptors(event);
    let mut list = Vec::with_capacity(alloc, described.len())?;
    for descriptor in described {
        let view = view_by(bound, lives, begun, questions, event, descriptor)?;
        list.push(view)?;
    }
    Ok(list)
}

/// The number that a Release gives back, and how much of it.
fn let_go_of(event: &DecodedRecord) -> Option<(TableKey, u64)>
    ensures { result ≡ let_go_of event.now }
{
    match event {
        DecodedRecord::Wire {
            sent,
            connection,
            message: RpcMessage::Release { id: number, count },
            ..
        } => {
            let number = TableKey::of_receiver(*sent, *connection, *number);
            Some((number, u64::from(*count)))
        }
        _ => None,
    }
}

/// Whether a number is held.
fn is_held(lives: &ExportsImports, number: TableKey) -> bool
    ensures { Decides result
        ((i : TableKey) → count_by (same_id i) (number ∷ []) ≤ held_count_at lives.now i) }
{
    lives.count_of(number) > 0
}

/// Whether each number is held at least as often as it is one of these.
fn are_held(alloc: Global, lives: &ExportsImports, numbers: &[TableKey]) -> Result<bool, AllocError>
    ensures { IfOk result
        (λ held. Decides held
        ((i : TableKey) → count_by (same_id i) numbers.now ≤ held_count_at lives.now i)) }
{
    match numbers {
        [] => Ok(true),
        [number] => Ok(is_held(lives, *number)),
        _ => are_several_held(alloc, lives, numbers),
    }
}

/// The same where they may be several.
fn are_several_held(
    alloc: Global,
    lives: &ExportsImports,
    numbers: &[TableKey],
) -> Result<bool, AllocError>
    ensures { IfOk result
        (λ held. Decides held
        ((i : TableKey) → count_by (same_id i) numbers.now ≤ held_count_at lives.now i)) }
{
    let mut tally = KeyCounts::new(alloc);
    for number in numbers {
        if tally.count(*number)? > lives.count_of(*number) {
            return Ok(false);
        }
    }
    Ok(true)
}

/// Whether a record gives back no more of each number than is held.
pub(crate) fn gives_back_held(
    alloc: Global,
    questions: &Questions,
    lives: &ExportsImports,
    event: &DecodedRecord,
) -> Result<bool, AllocError>
    ensures { IfOk result
        (λ held. Decides held
        ((i : TableKey) → given_by (question_at questions.now) i event.now
        ≤ held_count_at lives.now i)) }
{
    match let_go_of(event) {
        Some((number, count)) => Ok(count <= lives.count_of(number)),
        None => are_held(alloc, lives, given_back_by(questions, event)),
    }
}
