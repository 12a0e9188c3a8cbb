//! The steps that the records of all vats took so far, and what they sent.

ghost use Rattle.std.specs.Prelude.{◌≡◌, [], List, ℕ, true, IfOk, OnOk, option_and_then, slice_get};
ghost use Rattle.agree.specs.Rows.{Row};
ghost use Rattle.call_trace.specs.Naming.{message_of_step};
ghost use Rattle.call_trace.specs.Glue.RunBuilder.{IsTrail, IsNextIn, ComesNext, Comes};
ghost use Rattle.call_trace.specs.Types.{Step as Steps};
ghost use Rattle.vat_rules.specs.OfCaps.{is_received};

use crate::records::vat_ledger::{VatLedger, message_of};
use crate::steps::channels::Channels;
use crate::steps::stepping::{take_own, take_received};
use run_model::{Message, Step};
use std::alloc::{AllocError, Global};
use vat_rules::RecordFacts;
use vat_view::DecodedRecord;

/// A copy of the message of the step of this number.
fn message_at(steps: &[Step], number: usize) -> Result<Option<Message>, AllocError>
    ensures { IfOk result
        (λ message. message ≡ option_and_then message_of_step (slice_get steps.now number)) }
{
    let Some(step) = steps.get(number) else {
        return Ok(None);
    };
    match message_of(step) {
        Some(message) => Ok(Some(message.copy()?)),
        None => Ok(None),
    }
}

/// The steps that all vats took so far, and what they sent.
#[derive(Drop)]
pub(crate) struct RunBuilder {
    pub(crate) steps: Vec<Step>,
    lines: Channels,
}

impl RunBuilder {
    /// Before any step, with room for so many.
    pub(crate) fn new(alloc: Global, steps: usize) -> Result<RunBuilder, AllocError>
        ensures { IfOk result (IsTrail []) }
    {
        Ok(RunBuilder {
            steps: Vec::with_capacity(alloc, steps)?,
            lines: Channels::new(alloc),
        })
    }

    /// A record that is received takes its step.
    fn take_coming(
        &mut self,
        alloc: Global,
        ledger: &mut VatLedger,
        event: &DecodedRecord,
        facts: &RecordFacts,
    ) -> Result<(), AllocError>
        requires received { is_received event.now ≡ true }
        requires goes_on { ComesNext event.now facts.now self.old ledger.old }
        ensures { OnOk result
            ((v : ℕ) (row : Row) (before : List Steps)
            → IsNextIn v row before event.now facts.now self.old ledger.old
            → Comes v event.now row before self.new ledger.new) }
    {
        let DecodedRecord::Wire { connection, .. } = event else {
            unreachable!()
        };
        let Some(number) = self.lines.receive(ledger.vat, *connection)? else {
            unreachable!()
        };
        let Some(message) = message_at(&self.steps, number)? else {
            unreachable!()
        };
        take_received(alloc, &mut self.steps, ledger, event, facts, message)
    }

    /// A record takes its step.
    pub(crate) fn take(
        &mut self,
        alloc: Global,
        ledger: &mut VatLedger,
        event: &DecodedRecord,
        facts: &RecordFacts,
    ) -> Result<(), AllocError>
        requires { ComesNext event.now facts.now self.old ledger.old }
        ensures { OnOk result
            ((v : ℕ) (row : Row) (before : List Steps)
            → IsNextIn v row before event.now facts.now self.old ledger.old
            → Comes v event.now row before self.new ledger.new) }
    {
        match event {
            DecodedRecord::Wire { sent: false, .. } => self.take_coming(
                alloc, ledger, event, facts,
            ),
            DecodedRecord::Wire { connection, .. } => {
                let number = self.steps.len();
                take_own(alloc, &mut self.steps, ledger, event, facts)?;
                self.lines.note_sent(ledger.vat, *connection, number)
            }
            _ => take_own(alloc, &mut self.steps, ledger, event, facts),
        }
    }
}
