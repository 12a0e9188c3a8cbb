//! What is kept of a vat while its records take their steps.

ghost use Rattle.std.specs.Prelude.{◌≡◌, [], IfOk};
ghost use Rattle.std.specs.Option.{option_copied};
ghost use Rattle.call_trace.specs.Naming.{message_of_step, cap_at};
ghost use Rattle.call_trace.specs.Glue.Ledgers.{step_message_in, call_name_in, cap_in, view_in, IsKept};
ghost use Rattle.run_model.specs.Legal.{caps_brought};
ghost use Rattle.vat_rules.specs.Audit.{IsTrueOf};

use crate::records::bound_names::CallNames;
use run_model::{Cap, Message, Name, Step};
use std::alloc::{AllocError, Global};
use vat_rules::{Outcome, VatFinding};
use vat_view::View;

/// What is kept of a vat, by its records that took a step.
pub(crate) struct VatLedger {
    /// The vat.
    pub(crate) vat: u32,
    /// For each record the number of its step among the steps of all vats.
    pub(crate) numbers: Vec<usize>,
    /// The names of its calls.
    pub(crate) calls: CallNames,
}

impl Drop for VatLedger {
    fn drop(self) {
        let Self {
            vat: _,
            numbers: _,
            calls: _,
        } = self;
    }
}

/// The message that a step sends or receives.
pub(crate) fn message_of(step: &Step) -> Option<&Message>
    ensures { option_copied result ≡ message_of_step step.now }
{
    match step {
        Step::Send { message, .. } | Step::Receive { message, .. } => Some(message),
        Step::Host { .. }
        | Step::Vow { .. }
        | Step::Fulfil { .. }
        | Step::Break { .. }
        | Step::Make { .. }
        | Step::Name { .. }
        | Step::Deliver { .. }
        | Step::Answer { .. }
        | Step::AnswerBy { .. }
        | Step::Fault { .. } => None,
    }
}

/// The capability at a place of a message, if it brings one there.
fn brought_at(message: &Message, place: usize) -> Result<Option<Cap>, AllocError>
    ensures { IfOk result (λ cap. cap ≡ cap_at place (caps_brought message.now)) }
{
    let cap = match message {
        Message::Call { caps, .. } | Message::Return { caps, .. } => caps.as_slice().get(place),
        Message::Resolve(_, cap) if place == 0 => Some(cap),
        Message::Boot(_)
        | Message::Late(_)
        | Message::Failed(_)
        | Message::Taken(..)
        | Message::Elsewhere(_)
        | Message::Resolve(..)
        | Message::Broken(_)
        | Message::Plain(_) => None,
    };
    match cap {
        None | Some(Cap::Nothing) => Ok(None),
        Some(cap) => Ok(Some(cap.copy()?)),
    }
}

impl VatLedger {
    /// Before any record of a finding's log, with room for all that it tells of.
    pub(crate) fn new(alloc: Global, finding: &VatFinding) -> Result<VatLedger, AllocError>
        ensures kept { IfOk result (IsKept finding.now.log.vat [] [] []) }
        ensures of_the_log { IsTrueOf finding.now.log finding.now.limits finding.now.outcome }
    {
        let records = match finding.outcome() {
            Outcome::Good(story) => story.events().len(),
            _ => 0,
        };
        Ok(VatLedger {
            vat: finding.log().vat(),
            numbers: Vec::with_capacity(alloc, records)?,
            calls: CallNames::new(alloc),
        })
    }

    /// The message of the step of the record of this number.
    fn message<'a>(&self, steps: &'a [Step], number: usize) -> Option<&'a Message>
        ensures { option_copied result ≡ step_message_in steps.now self.now.numbers.items number }
    {
        let at = self.numbers.get(number)?;
        message_of(steps.get(*at)?)
    }

    /// The name of a call.
    pub(crate) fn call(&self, call: u64) -> Option<Name>
        ensures { result ≡ call_name_in self.now call }
    {
        self.calls.of(call)
    }

    /// The name of a view.
    pub(crate) fn cap(&self, steps: &[Step], view: &View) -> Result<Option<Cap>, AllocError>
        ensures { IfOk result (λ cap. cap ≡ cap_in steps.now self.now view.now) }
    {
        match view {
            View::Object(object) => Ok(Some(Cap::Object(self.vat, *object))),
            View::Promise(reference) => Ok(Some(Cap::Promise(self.vat, *reference))),
            View::Field(call, path) => match self.call(*call) {
                Some(name) => Ok(Some(Cap::Field(name, path.copy()?))),
                None => Ok(None),
            },
            View::Import(number, place) => match self.message(steps, *number) {
                Some(message) => brought_at(message, *place),
                None => Ok(None),
            },
        }
    }

    /// The name of a view, where there is one.
    pub(crate) fn name_of_view(
        &self,
        steps: &[Step],
        view: Option<&View>,
    ) -> Result<Option<Cap>, AllocError>
        ensures { IfOk result (λ cap. cap ≡ view_in steps.now self.now (option_copied view.entry)) }
    {
        match view {
            Some(view) => self.cap(steps, view),
            None => Ok(None),
        }
    }
}
