//! The step that one record takes.

ghost use Rattle.std.specs.Prelude.{◌≡◌, ℕ, List, None, true, false, OnOk};
ghost use Rattle.std.specs.Option.{option_copied};
ghost use Rattle.call_trace.specs.Glue.Ledgers.{call_bound_by, step_of_receipt, with_bound, IsBound, IsNoted, IsKept, HasStep, IsTaken};
ghost use Rattle.call_trace.specs.Running.{step_of};
ghost use Rattle.call_trace.specs.Types.{Step as Steps};
ghost use Rattle.vat_rules.specs.OfCaps.{is_received};
ghost use Rattle.vat_rules.specs.Telling.{facts_of};
ghost use Rattle.decoded_records.specs.Past.{Past};
ghost use Rattle.run_model.specs.Has.{call_in_message};

use crate::records::pushing::push_said;
use crate::records::saying::named_said;
use crate::records::vat_ledger::VatLedger;
use rpc_view::RpcMessage;
use run_model::{Caps, Message, Name, Step};
use std::alloc::{AllocError, Global};
use vat_rules::RecordFacts;
use vat_view::DecodedRecord;

/// The name of the call that a message is, if it is one.
fn call_named_in(message: &Message) -> Option<Name>
    ensures { result ≡ call_in_message message.now }
{
    match message {
        Message::Boot(call) | Message::Call { call, .. } => Some(*call),
        Message::Return { .. }
        | Message::Late(_)
        | Message::Failed(_)
        | Message::Taken(..)
        | Message::Elsewhere(_)
        | Message::Resolve(..)
        | Message::Broken(_)
        | Message::Plain(_) => None,
    }
}

/// The call to which a record gives a name, and the name: what it receives says this.
fn call_bound_by(vat: u32, event: &DecodedRecord, message: Option<&Message>) -> Option<(u64, Name)>
    ensures { result ≡ call_bound_by vat event.now (option_copied message.entry) }
{
    match event {
        DecodedRecord::Make { call, .. }
        | DecodedRecord::Wire {
            sent: true,
            call,
            message: RpcMessage::Bootstrap { .. },
            ..
        } => Some((
            *call,
            Name {
                maker: vat,
                number: *call,
            },
        )),
        DecodedRecord::Wire {
            sent: false,
            call,
            message: RpcMessage::Bootstrap { .. } | RpcMessage::Call { .. },
            ..
        } => Some((*call, call_named_in(message?)?)),
        _ => None,
    }
}

impl VatLedger {
    /// This call has this name.
    fn bind(&mut self, named: Option<(u64, Name)>) -> Result<(), AllocError>
        ensures { OnOk result (IsBound named self.old self.new) }
    {
        if let Some((call, name)) = named {
            self.calls.bind(call, name)?;
        }
        Ok(())
    }

    /// A record comes whose step has this number.
    fn note(&mut self, number: usize) -> Result<(), AllocError>
        ensures { OnOk result (IsNoted number self.old self.new) }
    {
        self.numbers.push(number)?;
        Ok(())
    }
}

/// A record that isn't received takes its step.
pub(crate) fn take_own(
    alloc: Global,
    steps: &mut Vec<Step>,
    ledger: &mut VatLedger,
    event: &DecodedRecord,
    facts: &RecordFacts,
) -> Result<(), AllocError>
    requires own { is_received event.now ≡ false }
    requires has_step { HasStep (λ v es own before. step_of v es own before event.now)
        event.now facts.now steps.old.items ledger.old }
    ensures { OnOk result
        ((v : ℕ) (es : Past) (own before : List Steps)
        → IsKept v es own steps.old.items ledger.old → facts.now ≡ facts_of es event.now
        → IsTaken v es event.now own
        (step_of v es own before event.now) steps.old.items steps.new.items ledger.new) }
{
    let number = steps.len();
    ledger.bind(call_bound_by(ledger.vat, event, None))?;
    push_said(alloc, ledger, steps, facts, event)?;
    ledger.note(number)
}

/// A step that receives has these bound now.
fn bind_caps(step: &mut Step, caps: Caps)
    ensures { step.new ≡ with_bound caps step.old }
{
    if let Step::Receive { bound, .. } = step {
        *bound = caps;
    }
}

/// A record that is received takes its step: it receives this message.
pub(crate) fn take_received(
    alloc: Global,
    steps: &mut Vec<Step>,
    ledger: &mut VatLedger,
    event: &DecodedRecord,
    facts: &RecordFacts,
    message: Message,
) -> Result<(), AllocError>
    requires received { is_received event.now ≡ true }
    requires has_step { HasStep (λ v es own before. step_of_receipt v es own event.now message)
        event.now facts.now steps.old.items ledger.old }
    ensures { OnOk result
        ((v : ℕ) (es : Past) (own : List Steps)
        → IsKept v es own steps.old.items ledger.old → facts.now ≡ facts_of es event.now
        → IsTaken v es event.now own
        (step_of_receipt v es own event.now message) steps.old.items steps.new.items ledger.new) }
{
    let DecodedRecord::Wire { connection, .. } = event else {
        unreachable!()
    };
    let number = steps.len();
    ledger.bind(call_bound_by(ledger.vat, event, Some(&message)))?;
    ledger.note(number)?;
    steps.push(Step::Receive {
        vat: ledger.vat,
        connection: *connection,
        message,
        bound: Caps::new(Vec::new(alloc)),
    })?;
    let Some(bound) = named_said(alloc, ledger, steps, facts.references())? else {
        unreachable!()
    };
    bind_caps(&mut steps[number], bound);
    Ok(())
}
