//! The headings of what targets stand for, by the tables. They take no memory.

ghost use Rattle.std.specs.Prelude.{◌≡◌, option_map};
ghost use Rattle.vat_view.specs.Types.{FieldOf};
ghost use Rattle.vat_view.specs.Glue.Asking.{targeted_by};
ghost use Rattle.vat_view.specs.Glue.Queues.{goal_key_of};
ghost use Rattle.vat_view.specs.Glue.Tables.{bound_at, view_from, number_by};
ghost use Rattle.number_tables.specs.Glue.QuestionTables.{call_by, question_at};

use crate::tables::references::BoundReferences;
use crate::tables::turns::goal_key::{GoalKey, digest, goal_key_of};
use cap_frame::Path;
use decoded_records::{DecodedRecord, Origin, TableKey};
use number_tables::{ExportsImports, Questions, call_of};
use rpc_view::{RpcMessage, Target};

/// The heading of what a number stands for, of this vat or of its peer, whose life began so.
fn heading_from(bound: &BoundReferences, ours: bool, origin: Origin) -> GoalKey
    ensures { result ≡ goal_key_of (view_from (bound_at bound.now) ours origin) }
{
    if !ours {
        return GoalKey::ToImport(origin.number, origin.place);
    }
    match origin.reference {
        Some(reference) => goal_key_of(bound.of(reference)),
        None => GoalKey::Nowhere,
    }
}

/// The heading of what an export or import number stands for.
fn heading_of_number(bound: &BoundReferences, lives: &ExportsImports, number: TableKey) -> GoalKey
    ensures { result ≡ goal_key_of (number_by (bound_at bound.now) lives.now number) }
{
    match lives.origin_of(number) {
        Some(origin) => heading_from(bound, number.ours, origin),
        None => GoalKey::Nowhere,
    }
}

/// The heading of the field at a path of the call of a question that isn't over.
fn heading_of_field(questions: &Questions, question: TableKey, path: &Path) -> GoalKey
    ensures { result
        ≡ goal_key_of (option_map (λ call. FieldOf call path.now)
        (call_by (question_at questions.now question))) }
{
    match call_of(questions, question) {
        Some(call) => GoalKey::ToField(call, digest(path.as_slice())),
        None => GoalKey::Nowhere,
    }
}

/// The heading of what a record's target stands for.
pub(crate) fn heading_of_target(
    bound: &BoundReferences,
    lives: &ExportsImports,
    questions: &Questions,
    event: &DecodedRecord,
) -> GoalKey
    ensures { result
        ≡ goal_key_of (targeted_by (bound_at bound.now) lives.now
        (question_at questions.now) event.now) }
{
    let DecodedRecord::Wire {
        sent,
        connection,
        message: RpcMessage::Call { target, .. } | RpcMessage::Disembargo { target, .. },
        ..
    } = event
    else {
        return GoalKey::Nowhere;
    };
    match target {
        Target::Imported(n) => {
            let number = TableKey::of_receiver(*sent, *connection, *n);
            heading_of_number(bound, lives, number)
        }
        Target::Promised(q, path) => {
            let question = TableKey::of_sender(*sent, *connection, *q);
            heading_of_field(questions, question, path)
        }
    }
}
