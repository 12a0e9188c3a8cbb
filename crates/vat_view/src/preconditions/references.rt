//! Whether a record names things as it should (docs/FORMATS.md).

ghost use Rattle.std.specs.Prelude.{◌≡◌, not, Decides, IfOk, IfSome};
ghost use Rattle.std.specs.List.{list_all};
ghost use Rattle.decoded_records.specs.Bindings.{Refers, is_bound, is_bound_call, is_distinct, new_references, new_calls, named_references, named_calls, notes_call};
ghost use Rattle.vat_view.specs.Glue.Plain.{IsNotedAlone};

use crate::preconditions::reference_set::ReferenceSet;
use crate::preconditions::uses::{all_three, both};
use crate::state::VatState;
use decoded_records::DecodedRecord;
use rpc_view::RpcMessage;
use std::alloc::{AllocError, Global};
use vat_log::ResultReferences;

/// Whether no reference stands twice.
fn is_distinct(alloc: Global, references: &[u64]) -> Result<bool, AllocError>
    ensures { IfOk result (λ distinct. distinct ≡ is_distinct references.now) }
{
    if references.len() <= 1 {
        return Ok(true);
    }
    let mut seen = ReferenceSet::new(alloc);
    for reference in references {
        if !seen.meet(*reference)? {
            return Ok(false);
        }
    }
    Ok(true)
}

/// Whether the references that a record newly binds are unused.
fn binds_unused(state: &VatState, event: &DecodedRecord) -> bool
    ensures { result ≡ list_all (λ r. not (is_bound state.now r)) (new_references event.now) }
{
    event
        .new_references()
        .iter()
        .all(|reference| !state.is_bound(*reference))
}

/// Whether the call that a record newly binds, if it does, is unused.
fn binds_unused_call(state: &VatState, event: &DecodedRecord) -> bool
    ensures { result ≡ list_all (λ c. not (is_bound_call state.now c)) (new_calls event.now) }
{
    match event.new_call() {
        Some(call) => !state.is_bound_call(call),
        None => true,
    }
}

/// Whether all these references are bound.
fn are_bound(state: &VatState, references: &[u64]) -> bool
    ensures { result ≡ list_all (is_bound state.now) references.now }
{
    references
        .iter()
        .all(|reference| state.is_bound(*reference))
}

/// Whether the references of all results are bound.
fn gives_bound(state: &VatState, results: &ResultReferences) -> bool
    ensures { result ≡ list_all (λ answer. is_bound state.now answer.0) results.now }
{
    results
        .as_slice()
        .iter()
        .all(|answer| state.is_bound(answer.0))
}

/// Whether the other references that a record names are bound.
fn names_bound(state: &VatState, event: &DecodedRecord) -> bool
    ensures { result ≡ list_all (is_bound state.now) (named_references event.now) }
{
    match event {
        DecodedRecord::Fulfil { reference, to } => state.is_bound(*reference)
            && state.is_bound(*to),
        DecodedRecord::Break { reference } | DecodedRecord::Make { reference, .. } =>
            state.is_bound(*reference),
        DecodedRecord::Answer { results, .. } => gives_bound(state, results),
        DecodedRecord::Wire {
            sent: true,
            references,
            ..
        } => are_bound(state, references.as_slice()),
        _ => true,
    }
}

/// Whether the other calls that a record names are bound.
fn names_bound_calls(state: &VatState, event: &DecodedRecord) -> bool
    ensures { result ≡ list_all (is_bound_call state.now) (named_calls event.now) }
{
    match event {
        DecodedRecord::AnswerBy { call, by } => state.is_bound_call(*call)
            && state.is_bound_call(*by),
        DecodedRecord::Field { call, .. }
        | DecodedRecord::Deliver { call, .. }
        | DecodedRecord::Answer { call, .. }
        | DecodedRecord::Fault { call }
        | DecodedRecord::Wire {
            sent: true,
            call,
            message: RpcMessage::Call { .. },
            ..
        } => state.is_bound_call(*call),
        _ => true,
    }
}

/// Whether a call is noted just where a question is opened.
fn notes_call(event: &DecodedRecord) -> bool
    ensures { result ≡ notes_call event.now }
{
    match event {
        DecodedRecord::Wire { call, .. } => (*call == 0) == event.question_opened().is_none(),
        _ => true,
    }
}

/// The call noted beside a message that opens no question, where no references are noted beside it. Such a record names
/// nothing of the vat's own.
fn noted_alone(event: &DecodedRecord) -> Option<u64>
    ensures { IfSome result (λ call. IsNotedAlone call event.now) }
{
    match event {
        DecodedRecord::Wire {
            call,
            references,
            message: RpcMessage::Return { .. }
            | RpcMessage::Finish { .. }
            | RpcMessage::Release { .. }
            | RpcMessage::Disembargo { .. },
            ..
        } => match references.as_slice() {
            [] => Some(*call),
            _ => None,
        },
        _ => None,
    }
}

/// Whether a record refers as it should that binds and names one number or two; None of a record of another kind.
fn refers_by_kind(state: &VatState, event: &DecodedRecord) -> Option<bool>
    ensures { IfSome result (λ refers. Decides refers (Refers state.now event.now)) }
{
    match event {
        DecodedRecord::Host { reference, .. } | DecodedRecord::Vow { reference } => {
            Some(!state.is_bound(*reference))
        }
        DecodedRecord::Make {
            call,
            reference,
            ..
        } => Some(both(!state.is_bound_call(*call), state.is_bound(*reference))),
        DecodedRecord::Field {
            reference,
            call,
            ..
        } => Some(both(!state.is_bound(*reference), state.is_bound_call(*call))),
        DecodedRecord::Deliver { call, .. } | DecodedRecord::Fault { call } => {
            Some(state.is_bound_call(*call))
        }
        _ => None,
    }
}

impl VatState {
    /// Whether a record that may be applied next newly binds unused and distinct references and an unused call, names
    /// others that are bound, and notes a call just where its message opens a question.
    ///
    /// # Errors
    ///
    /// Out of memory.
    pub fn refers(&self, event: &DecodedRecord) -> Result<bool, AllocError>
        ensures { IfOk result (λ refers. Decides refers (Refers self.now event.now)) }
    {
        if let Some(call) = noted_alone(event) {
            return Ok(call == 0);
        }
        if let Some(refers) = refers_by_kind(self, event) {
            return Ok(refers);
        }
        let distinct = is_distinct(self.allocator(), event.new_references())?;
        let binds = all_three(
            distinct,
            binds_unused(self, event),
            binds_unused_call(self, event),
        );
        let names = all_three(
            names_bound(self, event),
            names_bound_calls(self, event),
            notes_call(event),
        );
        Ok(binds && names)
    }
}
