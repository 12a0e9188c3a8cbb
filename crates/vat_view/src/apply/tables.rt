//! What one record tells the tables.

ghost use Rattle.std.specs.Prelude.{◌≡◌, ◌+◌, ◌-◌, ◌<◌, [], ◌∷◌, ℕ, true, length, count_by, OnOk, OnErr};
ghost use Rattle.vat_view.specs.Types.{TableKey};
ghost use Rattle.decoded_records.specs.Past.{Past, same_id, names};
ghost use Rattle.decoded_records.specs.Questions.{noted_call, asks_elsewhere, question_taken};
ghost use Rattle.decoded_records.specs.Lives.{descriptors, GivesBackHeld};
ghost use Rattle.decoded_records.specs.Uses.{UsesQuestions};
ghost use Rattle.vat_view.specs.Glue.TurnTables.{IsOwnOrOld};
ghost use Rattle.decoded_records.specs.Glue.Parts.{has_message};
ghost use Rattle.vat_view.specs.Glue.Plain.{own_bindings};
ghost use Rattle.vat_view.specs.Glue.Tables.{bound_at, bound_by, count_released, changed_if, ended_by, noted_by, IsTabled, AreTabled, IsFit};
ghost use Rattle.number_tables.specs.Glue.QuestionTables.{question_at, late_by, given_back_by, just_opened, with_taken, IsPut, IsSameQuestions};
ghost use Rattle.number_tables.specs.Glue.LifeTables.{held_count_at, origin_at, raised_origin};

use crate::record::bindings::{introduced_by, received_bindings};
use crate::tables::references::BoundReferences;
use decoded_records::{
    DecodedRecord, Origin, TableKey, TableKeys, View, asks_elsewhere, descriptors, has_message,
    introductions, new_references, noted_call, origins, question_finished, question_opened,
    question_released, question_returned, question_returned_lightly, question_taken,
};
use number_tables::{ExportsImports, QuestionState, Questions, given_back_by, is_late};
use rpc_view::RpcMessage;
use std::alloc::{AllocError, Global};

/// Takes from the counts what a Release gives back.
pub(crate) fn release(lives: &mut ExportsImports, event: &DecodedRecord)
    ensures counts { (i : TableKey) → held_count_at lives.new i
        ≡ held_count_at lives.old i - count_released i event.now }
    ensures origins { (i : TableKey) → origin_at lives.new i ≡ origin_at lives.old i }
{
    if let DecodedRecord::Wire {
        sent,
        connection,
        message: RpcMessage::Release { id: number, count },
        ..
    } = event
    {
        let number = TableKey::of_receiver(*sent, *connection, *number);
        lives.lower(number, u64::from(*count));
    }
}

/// Notes what a record does to the question that it returns or finishes.
fn note_return_or_finish(questions: &mut Questions, event: &DecodedRecord, introduced: TableKeys)
    ensures { (q : TableKey) → question_at questions.new q
        ≡ ended_by event.now introduced q (question_at questions.old q) }
{
    if let Some(question) = question_returned(event) {
        let light = question_returned_lightly(event).is_some();
        questions.note_return(question, light, introduced);
    }
    if let Some(question) = question_finished(event) {
        questions.note_finish(question, question_released(event).is_some());
    }
}

/// Notes that a record takes the results of a question, where it does.
fn note_taking(questions: &mut Questions, event: &DecodedRecord)
    ensures { (q : TableKey) → question_at questions.new q
        ≡ changed_if (names q (question_taken event.now)) with_taken (question_at questions.old q) }
{
    if let Some(question) = question_taken(event) {
        questions.note_taken(question);
    }
}

/// Notes what a record does to the question that it returns or finishes, and to the one whose results it takes.
pub(crate) fn note_on_question(
    questions: &mut Questions,
    event: &DecodedRecord,
    introduced: TableKeys,
)
    ensures { (q : TableKey) → question_at questions.new q
        ≡ noted_by event.now introduced q (question_at questions.old q) }
{
    note_return_or_finish(questions, event, introduced);
    note_taking(questions, event);
}

/// A record opened this question and introduced these numbers. Where memory is refused, nothing changes but the
/// origins of numbers that aren't held.
#[inline]
pub(crate) fn apply_opening(
    questions: &mut Questions,
    lives: &mut ExportsImports,
    event: &DecodedRecord,
    question: TableKey,
    numbers: TableKeys,
    origins: &[(TableKey, Origin)],
) -> Result<(), AllocError>
    ensures known { OnOk result
        (IsPut question
        (just_opened (noted_call event.now) (asks_elsewhere event.now) numbers)
        questions.old questions.new) }
    ensures counted { OnOk result
        ((i : TableKey) → held_count_at lives.new i
        ≡ held_count_at lives.old i + count_by (λ x. same_id i x.0) origins.now) }
    ensures born { OnOk result
        ((i : TableKey) → origin_at lives.new i
        ≡ raised_origin (held_count_at lives.old i) (origin_at lives.old i) i origins.now) }
    ensures same_known { OnErr result (IsSameQuestions questions.old questions.new) }
    ensures same_counted { OnErr result
        ((i : TableKey) → held_count_at lives.new i ≡ held_count_at lives.old i) }
    ensures same_born { OnErr result
        ((i : TableKey) → 0 < held_count_at lives.old i
        → origin_at lives.new i ≡ origin_at lives.old i) }
{
    lives.raise_each(origins)?;
    let known = QuestionState::opened(noted_call(event), asks_elsewhere(event), numbers);
    if questions.open(question, known).is_err() {
        lives.lower_raised(origins);
        return Err(AllocError);
    }
    Ok(())
}

/// A record that opens no question gives back what it does, and is noted at its question with the numbers that it
/// introduced.
#[inline]
fn give_back_and_note(
    questions: &mut Questions,
    lives: &mut ExportsImports,
    event: &DecodedRecord,
    numbers: TableKeys,
)
    ensures known { (q : TableKey) → question_at questions.new q
        ≡ noted_by event.now numbers q (question_at questions.old q) }
    ensures counted { (i : TableKey) → held_count_at lives.new i
        ≡ held_count_at lives.old i
        - count_by (same_id i) (given_back_by (question_at questions.old) event.now)
        - count_released i event.now }
    ensures born { (i : TableKey) → origin_at lives.new i ≡ origin_at lives.old i }
{
    lives.lower_each(given_back_by(questions, event));
    release(lives, event);
    note_on_question(questions, event, numbers);
}

/// A record that opens no question introduced these numbers. Where memory is refused, nothing changes but the origins
/// of numbers that aren't held.
pub(crate) fn apply_other(
    questions: &mut Questions,
    lives: &mut ExportsImports,
    event: &DecodedRecord,
    numbers: TableKeys,
    origins: &[(TableKey, Origin)],
) -> Result<(), AllocError>
    ensures known { OnOk result
        ((q : TableKey) → question_at questions.new q
        ≡ noted_by event.now numbers q (question_at questions.old q)) }
    ensures counted { OnOk result
        ((i : TableKey) → held_count_at lives.new i
        ≡ held_count_at lives.old i
        + count_by (λ x. same_id i x.0) origins.now
        - count_by (same_id i) (given_back_by (question_at questions.old) event.now)
        - count_released i event.now) }
    ensures born { OnOk result
        ((i : TableKey) → origin_at lives.new i
        ≡ raised_origin (held_count_at lives.old i) (origin_at lives.old i) i origins.now) }
    ensures same_known { OnErr result (IsSameQuestions questions.old questions.new) }
    ensures same_counted { OnErr result
        ((i : TableKey) → held_count_at lives.new i ≡ held_count_at lives.old i) }
    ensures same_born { OnErr result
        ((i : TableKey) → 0 < held_count_at lives.old i
        → origin_at lives.new i ≡ origin_at lives.old i) }
{
    lives.raise_each(origins)?;
    give_back_and_note(questions, lives, event, numbers);
    Ok(())
}

/// Tells the tables of one record, which has this number in the log, and whether it is late. Where memory is refused,
/// they are of the records before.
pub(crate) fn count_numbers(
    alloc: Global,
    late: bool,
    number: usize,
    questions: &mut Questions,
    lives: &mut ExportsImports,
    event: &DecodedRecord,
) -> Result<(), AllocError>
    requires { late ≡ late_by (question_at questions.old) event.now }
    ensures ok { OnOk result
        ((before : Past) → number ≡ length before → IsTabled before questions.old lives.old
        → UsesQuestions before event.now → GivesBackHeld before event.now
        → IsTabled (event.now ∷ before) questions.new lives.new) }
    ensures err { OnErr result
        ((before : Past) → IsTabled before questions.old lives.old
        → IsTabled before questions.new lives.new) }
{
    let numbers = introductions(alloc, late, event)?;
    let origins = origins(alloc, late, number, event)?;
    let begun = origins.as_slice();
    match question_opened(event) {
        Some(question) => apply_opening(questions, lives, event, question, numbers, begun),
        None => apply_other(questions, lives, event, numbers, begun),
    }
}

/// Tells the tables of one record that has no descriptors. Where memory is refused, they are of the records before.
fn count_plain(
    questions: &mut Questions,
    lives: &mut ExportsImports,
    event: &DecodedRecord,
) -> Result<(), AllocError>
    requires { descriptors event.now ≡ [] }
    ensures ok { OnOk result
        ((before : Past) → IsTabled before questions.old lives.old
        → UsesQuestions before event.now → GivesBackHeld before event.now
        → IsTabled (event.now ∷ before) questions.new lives.new) }
    ensures err { OnErr result
        ((before : Past) → IsTabled before questions.old lives.old
        → IsTabled before questions.new lives.new) }
{
    let none = TableKeys::none();
    match question_opened(event) {
        Some(question) => apply_opening(questions, lives, event, question, none, &[]),
        None => {
            give_back_and_note(questions, lives, event, none);
            Ok(())
        }
    }
}

/// Tells all tables of one record that has descriptors, and this number in the log. Where memory is refused, they are
/// of the records before.
fn bind_described(
    alloc: Global,
    number: usize,
    questions: &mut Questions,
    lives: &mut ExportsImports,
    bound: &mut BoundReferences,
    event: &DecodedRecord,
) -> Result<(), AllocError>
    requires { has_message event.now ≡ true }
    ensures ok { OnOk result
        ((before : Past) → number ≡ length before
        → AreTabled before questions.old lives.old bound.old → IsFit before event.now
        → AreTabled (event.now ∷ before) questions.new lives.new bound.new) }
    ensures err { OnErr result
        ((before : Past) → number ≡ length before
        → AreTabled before questions.old lives.old bound.old → IsFit before event.now
        → AreTabled before questions.new lives.new bound.new) }
    ensures ahead { IsOwnOrOld bound.old bound.new }
{
    let late = is_late(questions, event);
    let begun = introduced_by(alloc, late, number, event)?;
    let list = received_bindings(alloc, bound, lives, &begun, questions, event)?;
    if bound.bind_each(list).is_err() {
        bound.unbind_each(new_references(event));
        return Err(AllocError);
    }
    if count_numbers(alloc, late, number, questions, lives, event).is_err() {
        bound.unbind_each(new_references(event));
        return Err(AllocError);
    }
    Ok(())
}

/// Binds the reference that HOST, VOW or FIELD binds. Where memory is refused, nothing changes.
#[inline(always)]
fn bind_new(bound: &mut BoundReferences, event: &DecodedRecord) -> Result<(), AllocError>
    ensures ok { OnOk result
        ((q : ℕ) → bound_at bound.new q
        ≡ bound_by q (own_bindings event.now) (bound_at bound.old q)) }
    ensures err { OnErr result ((q : ℕ) → bound_at bound.new q ≡ bound_at bound.old q) }
    ensures ahead { IsOwnOrOld bound.old bound.new }
{
    match event {
        DecodedRecord::Host { reference, object } => bound.bind(*reference, View::Object(*object)),
        DecodedRecord::Vow { reference } => bound.bind(*reference, View::Promise(*reference)),
        DecodedRecord::Field {
            reference,
            call,
            path,
        } => bound.bind(*reference, View::Field(*call, path.copy()?)),
        _ => Ok(()),
    }
}

/// Binds the reference that a record without a message binds, if it binds one. Where memory is refused, nothing changes.
#[inline(always)]
fn bind_own(bound: &mut BoundReferences, event: &DecodedRecord) -> Result<(), AllocError>
    ensures ok { OnOk result
        ((q : ℕ) → bound_at bound.new q
        ≡ bound_by q (own_bindings event.now) (bound_at bound.old q)) }
    ensures err { OnErr result ((q : ℕ) → bound_at bound.new q ≡ bound_at bound.old q) }
    ensures ahead { IsOwnOrOld bound.old bound.new }
{
    match event {
        DecodedRecord::Host { .. } | DecodedRecord::Vow { .. } | DecodedRecord::Field { .. } => {
            bind_new(bound, event)
        }
        _ => Ok(()),
    }
}

/// Tells all tables of one record, which has this number in the log. Where memory is refused, they are of the records
/// before. Records without descriptors are told first, since they are many and there is little to tell.
#[inline(always)]
pub(crate) fn bind_and_count(
    alloc: Global,
    number: usize,
    questions: &mut Questions,
    lives: &mut ExportsImports,
    bound: &mut BoundReferences,
    event: &DecodedRecord,
) -> Result<(), AllocError>
    ensures ok { OnOk result
        ((before : Past) → number ≡ length before
        → AreTabled before questions.old lives.old bound.old → IsFit before event.now
        → AreTabled (event.now ∷ before) questions.new lives.new bound.new) }
    ensures err { OnErr result
        ((before : Past) → number ≡ length before
        → AreTabled before questions.old lives.old bound.old → IsFit before event.now
        → AreTabled before questions.new lives.new bound.new) }
    ensures ahead { IsOwnOrOld bound.old bound.new }
{
    if !has_message(event) {
        return bind_own(bound, event);
    }
    match descriptors(event) {
        [] => count_plain(questions, lives, event),
        _ => bind_described(alloc, number, questions, lives, bound, event),
    }
}
