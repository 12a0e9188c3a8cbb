//! The steps that the records of a vat say, each put behind those before: what the vat makes by itself, and what it sends.

ghost use Rattle.std.specs.Prelude.{◌≡◌, Option, OnOk};
ghost use Rattle.std.specs.Option.{option_copied};
ghost use Rattle.call_trace.specs.Part.{promise_in};
ghost use Rattle.call_trace.specs.Glue.Ledgers.{naming_by_tables, call_name_in, kept_view, sent_said, results_said, fulfil_said, answer_by_said, of_call_said, make_said, answer_said, send_said, own_said, step_said_by, pushed};

use crate::records::saying::{results_said, sent_said, view_at};
use crate::records::vat_ledger::VatLedger;
use cap_frame::Path;
use rpc_view::RpcMessage;
use run_model::{Cap, Step};
use std::alloc::{AllocError, Global};
use vat_rules::RecordFacts;
use vat_view::{DecodedRecord, View};

/// The own promise that a view is.
fn promise_in(view: Option<&View>) -> Option<u64>
    ensures { result ≡ promise_in (option_copied view.entry) }
{
    match view {
        Some(View::Promise(reference)) => Some(*reference),
        _ => None,
    }
}

/// The step that keeps a promise comes behind these, where both have names.
fn push_fulfil(
    ledger: &VatLedger,
    steps: &mut Vec<Step>,
    facts: &RecordFacts,
) -> Result<(), AllocError>
    ensures { OnOk result (steps.new.items
        ≡ pushed (fulfil_said (naming_by_tables steps.old.items ledger.now) facts.now) steps.old.items) }
{
    let vat = ledger.vat;
    let promise = promise_in(view_at(facts.references(), 0));
    let to = ledger.name_of_view(steps, view_at(facts.references(), 1))?;
    if let (Some(promise), Some(to)) = (promise, to) {
        steps.push(Step::Fulfil { vat, promise, to })?;
    }
    Ok(())
}

/// The step of a record that names a call and no other capability comes behind these, where the call has a name.
fn push_of_call(
    ledger: &VatLedger,
    steps: &mut Vec<Step>,
    event: &DecodedRecord,
) -> Result<(), AllocError>
    ensures { OnOk result (steps.new.items
        ≡ pushed (of_call_said ledger.now.vat (call_name_in ledger.now) event.now) steps.old.items) }
{
    let vat = ledger.vat;
    let (DecodedRecord::Field { call, .. }
    | DecodedRecord::Deliver { call, .. }
    | DecodedRecord::Fault { call }) = event
    else {
        return Ok(());
    };
    let Some(call) = ledger.call(*call) else {
        return Ok(());
    };
    match event {
        DecodedRecord::Field { path, .. } => {
            let cap = Cap::Field(call, path.copy()?);
            steps.push(Step::Name { vat, cap })?;
        }
        DecodedRecord::Deliver { object, .. } => {
            let object = *object;
            steps.push(Step::Deliver { vat, call, object })?;
        }
        _ => steps.push(Step::Fault { vat, call })?,
    }
    Ok(())
}

/// The step that answers a call by another, where both have names.
fn answer_by_said(ledger: &VatLedger, call: u64, by: u64) -> Option<Step>
    ensures { result ≡ answer_by_said ledger.now.vat (call_name_in ledger.now) call by }
{
    Some(Step::AnswerBy {
        vat: ledger.vat,
        call: ledger.call(call)?,
        by: ledger.call(by)?,
    })
}

/// The step that makes a call comes behind these, where its target has a name.
fn push_make(
    ledger: &VatLedger,
    steps: &mut Vec<Step>,
    facts: &RecordFacts,
    event: &DecodedRecord,
) -> Result<(), AllocError>
    ensures { OnOk result (steps.new.items
        ≡ pushed (make_said (naming_by_tables steps.old.items ledger.now) facts.now event.now) steps.old.items) }
{
    let DecodedRecord::Make {
        call,
        reference,
        interface,
        method,
    } = event
    else {
        return Ok(());
    };
    if let Some(cap) = ledger.name_of_view(steps, view_at(facts.references(), 0))? {
        steps.push(Step::Make {
            vat: ledger.vat,
            number: *call,
            cap,
            reference: *reference,
            interface: *interface,
            method: *method,
        })?;
    }
    Ok(())
}

/// The step that answers a call with results comes behind these, where all that it names has a name.
fn push_answer(
    alloc: Global,
    ledger: &VatLedger,
    steps: &mut Vec<Step>,
    facts: &RecordFacts,
    call: u64,
    results: &[(u64, Path)],
) -> Result<(), AllocError>
    ensures { OnOk result (steps.new.items
        ≡ pushed (answer_said (naming_by_tables steps.old.items ledger.now) facts.now call results.now)
        steps.old.items) }
{
    let said = results_said(alloc, ledger, steps, facts, results)?;
    if let (Some(call), Some(results)) = (ledger.call(call), said) {
        let vat = ledger.vat;
        steps.push(Step::Answer { vat, call, results })?;
    }
    Ok(())
}

/// The step that sends a message comes behind these, where all that it names has a name. `noted` is the connection, and the
/// call that is noted beside the message.
fn push_sent(
    alloc: Global,
    ledger: &VatLedger,
    steps: &mut Vec<Step>,
    facts: &RecordFacts,
    noted: (u32, u64),
    message: &RpcMessage,
) -> Result<(), AllocError>
    ensures { OnOk result (steps.new.items
        ≡ pushed (send_said (naming_by_tables steps.old.items ledger.now) facts.now noted.0 noted.1 message.now)
        steps.old.items) }
{
    let (connection, call) = noted;
    if let Some(message) = sent_said(alloc, ledger, steps, facts, call, message)? {
        let vat = ledger.vat;
        steps.push(Step::Send {
            vat,
            connection,
            message,
        })?;
    }
    Ok(())
}

/// The step that a record of what the vat makes by itself says comes behind these, where all that it names has a name.
fn push_own(
    alloc: Global,
    ledger: &VatLedger,
    steps: &mut Vec<Step>,
    facts: &RecordFacts,
    event: &DecodedRecord,
) -> Result<(), AllocError>
    ensures { OnOk result (steps.new.items
        ≡ pushed (own_said (naming_by_tables steps.old.items ledger.now) facts.now event.now) steps.old.items) }
{
    let vat = ledger.vat;
    match event {
        DecodedRecord::Host { object, .. } => {
            let object = *object;
            steps.push(Step::Host { vat, object })?;
        }
        DecodedRecord::Vow { reference } => {
            let promise = *reference;
            steps.push(Step::Vow { vat, promise })?;
        }
        DecodedRecord::Fulfil { .. } => push_fulfil(ledger, steps, facts)?,
        DecodedRecord::Break { .. } => {
            if let Some(promise) = promise_in(view_at(facts.references(), 0)) {
                steps.push(Step::Break { vat, promise })?;
            }
        }
        DecodedRecord::Make { .. } => push_make(ledger, steps, facts, event)?,
        DecodedRecord::Answer { call, results } => {
            push_answer(alloc, ledger, steps, facts, *call, results.as_slice())?;
        }
        _ => {}
    }
    Ok(())
}

/// The step that a record says that isn't received comes behind these, where all that it names has a name.
pub(crate) fn push_said(
    alloc: Global,
    ledger: &VatLedger,
    steps: &mut Vec<Step>,
    facts: &RecordFacts,
    event: &DecodedRecord,
) -> Result<(), AllocError>
    ensures { OnOk result (steps.new.items
        ≡ pushed (step_said_by (naming_by_tables steps.old.items ledger.now) facts.now event.now) steps.old.items) }
{
    match event {
        DecodedRecord::Wire {
            connection,
            call,
            message,
            ..
        } => push_sent(alloc, ledger, steps, facts, (*connection, *call), message)?,
        DecodedRecord::Field { .. } | DecodedRecord::Deliver { .. } | DecodedRecord::Fault { .. } =>
            { push_of_call(ledger, steps, event)? }
        DecodedRecord::AnswerBy { call, by } => {
            if let Some(step) = answer_by_said(ledger, *call, *by) {
                steps.push(step)?;
            }
        }
        _ => push_own(alloc, ledger, steps, facts, event)?,
    }
    Ok(())
}
