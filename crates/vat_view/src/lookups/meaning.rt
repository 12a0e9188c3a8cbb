//! What numbers stand for, by the tables.

ghost use Rattle.std.specs.Prelude.{◌≡◌, option_map, IfOk};
ghost use Rattle.vat_view.specs.Types.{FieldOf};
ghost use Rattle.vat_view.specs.Glue.Tables.{bound_at, view_from, number_by};
ghost use Rattle.number_tables.specs.Glue.QuestionTables.{call_by, question_at};

use crate::tables::references::BoundReferences;
use cap_frame::Path;
use decoded_records::{Origin, TableKey, View};
use number_tables::{ExportsImports, Questions, call_of};
use std::alloc::AllocError;

/// The view of a reference, if it has one.
#[inline]
pub(crate) fn view_of_reference(
    bound: &BoundReferences,
    reference: u64,
) -> Result<Option<View>, AllocError>
    ensures { IfOk result (λ v. v ≡ bound_at bound.now reference) }
{
    match bound.of(reference) {
        Some(view) => Ok(Some(view.copy()?)),
        None => Ok(None),
    }
}

/// What a number stands for, of this vat or of its peer, whose life began so.
pub(crate) fn view_from(
    bound: &BoundReferences,
    ours: bool,
    origin: Origin,
) -> Result<Option<View>, AllocError>
    ensures { IfOk result (λ v. v ≡ view_from (bound_at bound.now) ours origin) }
{
    if !ours {
        return Ok(Some(View::Import(origin.number, origin.place)));
    }
    match origin.reference {
        Some(reference) => view_of_reference(bound, reference),
        None => Ok(None),
    }
}

/// What an export or import number stands for.
#[inline]
pub(crate) fn view_of_number(
    bound: &BoundReferences,
    lives: &ExportsImports,
    number: TableKey,
) -> Result<Option<View>, AllocError>
    ensures { IfOk result (λ v. v ≡ number_by (bound_at bound.now) lives.now number) }
{
    match lives.origin_of(number) {
        Some(origin) => view_from(bound, number.ours, origin),
        None => Ok(None),
    }
}

/// The field at a path of the call of a question that isn't over.
pub(crate) fn field_of(
    questions: &Questions,
    question: TableKey,
    path: &Path,
) -> Result<Option<View>, AllocError>
    ensures { IfOk result
        (λ v. v ≡ option_map (λ call. FieldOf call path.now)
        (call_by (question_at questions.now question))) }
{
    match call_of(questions, question) {
        Some(call) => Ok(Some(View::Field(call, path.copy()?))),
        None => Ok(None),
    }
}
