//! What can be asked of calls.

ghost use Rattle.std.specs.Prelude.{◌≡◌, ◌<◌, IfOk, IsTrue};
ghost use Rattle.decoded_records.specs.declared.view.View.{View};
ghost use Rattle.decoded_records.specs.Bindings.{is_bound_call};
ghost use Rattle.decoded_records.specs.Calls.{request_of, goal_of, is_at_vat, is_served, is_settled, is_known, answered_by};

use crate::state::VatState;
use decoded_records::{Request, View};
use std::alloc::AllocError;

/// What can be asked of calls.
impl VatState {
    /// Whether a call is bound.
    pub(crate) fn is_bound_call(&self, call: u64) -> bool
        ensures { result ≡ is_bound_call self.now call }
    {
        self.tables.calls.has(call)
    }

    /// What a call asked for when it came to the vat, by MAKE or by a received Call. It is asked of a call that is there
    /// still ([`VatState::is_at_vat`]): what a call asked for is forgotten once it has left.
    ///
    /// # Errors
    ///
    /// Out of memory.
    pub fn request_of(&self, call: u64) -> Result<Option<Request>, AllocError>
        requires { IsTrue (is_at_vat call self.now) }
        ensures { IfOk result (λ asks. asks ≡ request_of call self.now) }
    {
        self.tables.calls.request_of(call)
    }

    /// A call's goal, if it came to the vat with one: what the reference of its MAKE, or the target of its received
    /// Call, stood for then. It is asked of a call that is there still ([`VatState::is_at_vat`]): the goal of a call is
    /// forgotten once it has left.
    ///
    /// # Errors
    ///
    /// Out of memory.
    pub fn goal_of(&self, call: u64) -> Result<Option<View>, AllocError>
        requires { IsTrue (is_at_vat call self.now) }
        ensures { IfOk result (λ goal. goal ≡ goal_of call self.now) }
    {
        self.tables.calls.goal_of(call)
    }

    /// Whether a call is at the vat: it came, and wasn't delivered, faulted, sent on, or answered by a sent Return with
    /// exception or canceled since.
    pub fn is_at_vat(&self, call: u64) -> bool
        ensures { result ≡ is_at_vat call self.now }
    {
        self.tables.calls.is_at_vat(call)
    }

    /// Whether a call was delivered here, or is that of a received Bootstrap.
    pub fn is_served(&self, call: u64) -> bool
        ensures { result ≡ is_served call self.now }
    {
        self.tables.calls.is_served(call)
    }

    /// Whether a call has an answer or fault.
    pub fn is_settled(&self, call: u64) -> bool
        ensures { result ≡ is_settled call self.now }
    {
        self.tables.calls.is_settled(call)
    }

    /// The call by whose results a call was answered last, if it was: by ANSWERBY, or by a received Return that isn't
    /// late and takes the results of another question (rpc.capnp, `Return.takeFromOtherQuestion`).
    pub fn answered_by(&self, call: u64) -> Option<u64>
        ensures { result ≡ answered_by call self.now }
    {
        match self.tables.turns.handover_of(call) {
            Some(handover) => Some(handover.by),
            None => None,
        }
    }

    /// Whether a call's results are known: by ANSWER, by ANSWERBY, or by a received Return that isn't late and brings
    /// them or takes those of another question.
    pub fn is_known(&self, call: u64) -> bool
        ensures { result ≡ is_known call self.now }
    {
        self.tables.calls.is_known(call)
    }
}
