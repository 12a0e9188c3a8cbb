//! How far calls have come.

ghost use Rattle.std.specs.Prelude.{◌≡◌, Option};
ghost use Rattle.number_tables.specs.Types.{Request};
ghost use Rattle.number_tables.specs.Glue.CallStates.{call_state_in, leaves, request_after, after_change};

use decoded_records::Request;

/// What is known of a call that is bound.
#[derive(Drop)]
pub struct CallState {
    /// What it asked for, while it is at the vat.
    pub asked: Option<Request>,
    /// Whether it is at the vat.
    pub at_vat: bool,
    /// Whether it was delivered here, or is that of a received Bootstrap.
    pub served: bool,
    /// Whether it has an answer or fault.
    pub settled: bool,
    /// Whether its results are known.
    pub known: bool,
}

/// What is kept of each call of a log, to its end: how far it has come. What it asked for stands elsewhere, and no
/// longer than it is at the vat.
#[derive(Clone, Copy)]
pub(crate) struct CallEntry {
    /// Whether it is at the vat.
    pub(crate) at_vat: bool,
    /// Whether it was delivered here, or is that of a received Bootstrap.
    pub(crate) served: bool,
    /// Whether it has an answer or fault.
    pub(crate) settled: bool,
    /// Whether its results are known.
    pub(crate) known: bool,
}

impl CallEntry {
    /// This happens to the call.
    pub(crate) fn change(&mut self, step: CallChange)
        ensures { (asked : Option Request) → call_state_in (request_after step asked) self.new
            ≡ after_change step (call_state_in asked self.old) }
    {
        match step {
            CallChange::Left => self.at_vat = false,
            CallChange::Delivered => {
                self.at_vat = false;
                self.served = true;
            }
            CallChange::Faulted => {
                self.at_vat = false;
                self.settled = true;
            }
            CallChange::Answered => {
                self.settled = true;
                self.known = true;
            }
            CallChange::Known => self.known = true,
        }
    }
}

/// What happens to a call that is bound.
#[derive(Clone, Copy)]
pub enum CallChange {
    /// It leaves the vat: it is sent on, or a sent Return with exception or canceled answers it.
    Left,
    /// It is delivered to an object of the vat.
    Delivered,
    /// It ends with no results.
    Faulted,
    /// It is answered.
    Answered,
    /// A received Return makes its results known.
    Known,
}

impl CallChange {
    /// Whether the call is at the vat no longer.
    pub(crate) fn leaves(self) -> bool
        ensures { result ≡ leaves self }
    {
        match self {
            CallChange::Left | CallChange::Delivered | CallChange::Faulted => true,
            CallChange::Answered | CallChange::Known => false,
        }
    }
}
