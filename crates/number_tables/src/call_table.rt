//! The table of calls.

ghost use Rattle.std.specs.Prelude.{◌≡◌, ◌==◌, ℕ, true, None, Some, OnOk, OnErr, if◌then◌else◌, is_some, option_map, IfOk};
ghost use Rattle.std.specs.Option.{option_copied};
ghost use Rattle.number_tables.specs.Glue.CallStates.{call_state_at, call_state_in, request_kept_at, request_in, goal_in, at_vat_in, served_in, settled_in, known_in, after_change, same_target};

use crate::call_state::{CallChange, CallEntry, CallState};
use decoded_records::{Request, View};
use rising_table::RisingTable;
use std::alloc::{AllocError, Global};
use std::collections::BTreeMap;

/// How far each call that is bound has come, and what each one at the vat asked for. What a call asked for is kept no
/// longer than that: nothing asks for it once the call has left, and a log may have very many calls.
#[derive(Drop)]
pub struct Calls {
    entries: RisingTable<CallEntry>,
    requests: BTreeMap<u64, Request>,
}

impl Calls {
    /// Before any call is bound.
    pub fn new(alloc: Global) -> Calls
        ensures { (c : ℕ) → call_state_at result c ≡ None }
    {
        Calls {
            entries: RisingTable::new(alloc),
            requests: BTreeMap::new(alloc),
        }
    }

    /// Whether this call is bound.
    pub fn has(&self, call: u64) -> bool
        ensures { result ≡ is_some (call_state_at self.now call) }
    {
        self.entries.has(call)
    }

    /// What is kept of what a call that is bound asked for.
    #[inline]
    fn asked(&self, call: u64) -> Option<&Request>
        ensures { option_copied result ≡ request_in (call_state_at self.now call) }
    {
        if self.entries.has(call) {
            self.requests.get(&call)
        } else {
            None
        }
    }

    /// What this call asked for when it came to the vat, if it is there still. The only error is that memory ran out.
    pub fn request_of(&self, call: u64) -> Result<Option<Request>, AllocError>
        ensures { IfOk result (λ asked. asked ≡ request_in (call_state_at self.now call)) }
    {
        match self.asked(call) {
            Some(request) => {
                let goal = match &request.goal {
                    Some(view) => Some(view.copy()?),
                    None => None,
                };
                Ok(Some(Request {
                    goal,
                    interface: request.interface,
                    method: request.method,
                }))
            }
            None => Ok(None),
        }
    }

    /// The goal with which this call came to the vat, if it is there still, and came with one.
    pub fn goal(&self, call: u64) -> Option<&View>
        ensures { option_copied result ≡ goal_in (call_state_at self.now call) }
    {
        match self.asked(call) {
            Some(request) => request.goal.as_ref(),
            None => None,
        }
    }

    /// A copy of the goal of this call. The only error is that memory ran out.
    pub fn goal_of(&self, call: u64) -> Result<Option<View>, AllocError>
        ensures { IfOk result (λ goal. goal ≡ goal_in (call_state_at self.now call)) }
    {
        match self.goal(call) {
            Some(goal) => Ok(Some(goal.copy()?)),
            None => Ok(None),
        }
    }

    /// Whether the goal of this call is this one, where either may be none.
    pub fn goes_to(&self, call: u64, goal: &Option<View>) -> bool
        ensures { result ≡ same_target (goal_in (call_state_at self.now call)) goal.now }
    {
        match (self.goal(call), goal) {
            (Some(a), Some(b)) => a.is_same(b),
            (None, None) => true,
            _ => false,
        }
    }

    /// Whether this call is at the vat.
    pub fn is_at_vat(&self, call: u64) -> bool
        ensures { result ≡ at_vat_in (call_state_at self.now call) }
    {
        match self.entries.get(call) {
            Some(entry) => entry.at_vat,
            None => false,
        }
    }

    /// Whether this call was delivered here, or is that of a received Bootstrap.
    pub fn is_served(&self, call: u64) -> bool
        ensures { result ≡ served_in (call_state_at self.now call) }
    {
        match self.entries.get(call) {
            Some(entry) => entry.served,
            None => false,
        }
    }

    /// Whether this call has an answer or fault.
    pub fn is_settled(&self, call: u64) -> bool
        ensures { result ≡ settled_in (call_state_at self.now call) }
    {
        match self.entries.get(call) {
            Some(entry) => entry.settled,
            None => false,
        }
    }

    /// Whether the results of this call are known.
    pub fn is_known(&self, call: u64) -> bool
        ensures { result ≡ known_in (call_state_at self.now call) }
    {
        match self.entries.get(call) {
            Some(entry) => entry.known,
            None => false,
        }
    }

    /// A call asks for what it asked for before, or for nothing again.
    fn put_back(&mut self, call: u64, last: Option<Request>)
        requires { is_some (request_kept_at self.old call) ≡ true }
        ensures requests { (c : ℕ) → request_kept_at self.new c
            ≡ (if call == c then last else request_kept_at self.old c) }
        ensures entries { self.new.entries ≡ self.old.entries }
    {
        match last {
            Some(request) => {
                if let Some(asked) = self.requests.get_mut(&call) {
                    *asked = request;
                }
            }
            None => {
                let _ = self.requests.remove(&call);
            }
        }
    }

    /// This call is bound, has come so far, and asked for this. Where memory is refused, nothing changes.
    fn begin_asking(
        &mut self,
        call: u64,
        entry: CallEntry,
        request: Request,
    ) -> Result<(), AllocError>
        ensures ok { OnOk result
            ((c : ℕ) → call_state_at self.new c
            ≡ (if call == c then Some (call_state_in (Some request) entry)
            else call_state_at self.old c)) }
        ensures err { OnErr result ((c : ℕ) → call_state_at self.new c ≡ call_state_at self.old c) }
    {
        let last = self.requests.insert(call, request)?;
        if self.entries.put(call, entry).is_err() {
            self.put_back(call, last);
            return Err(AllocError);
        }
        Ok(())
    }

    /// This call is bound, has come so far, and asked for nothing. Where memory is refused, nothing changes.
    fn begin_still(&mut self, call: u64, entry: CallEntry) -> Result<(), AllocError>
        ensures ok { OnOk result
            ((c : ℕ) → call_state_at self.new c
            ≡ (if call == c then Some (call_state_in None entry) else call_state_at self.old c)) }
        ensures err { OnErr result ((c : ℕ) → call_state_at self.new c ≡ call_state_at self.old c) }
    {
        self.entries.put(call, entry)?;
        let _ = self.requests.remove(&call);
        Ok(())
    }

    /// This call is bound, and has come so far. Where memory is refused, nothing changes.
    pub fn begin(&mut self, call: u64, progress: CallState) -> Result<(), AllocError>
        ensures ok { OnOk result
            ((c : ℕ) → call_state_at self.new c
            ≡ (if call == c then Some progress else call_state_at self.old c)) }
        ensures err { OnErr result ((c : ℕ) → call_state_at self.new c ≡ call_state_at self.old c) }
    {
        let entry = CallEntry {
            at_vat: progress.at_vat,
            served: progress.served,
            settled: progress.settled,
            known: progress.known,
        };
        match progress.asked {
            Some(request) => self.begin_asking(call, entry, request),
            None => self.begin_still(call, entry),
        }
    }

    /// This call isn't bound. Nothing is kept of it: neither how far it has come, nor what it asked for.
    pub fn forget(&mut self, call: u64)
        ensures states { (c : ℕ) → call_state_at self.new c
            ≡ (if call == c then None else call_state_at self.old c) }
        ensures request { request_kept_at self.new call ≡ None }
    {
        self.entries.remove(call);
        let _ = self.requests.remove(&call);
    }

    /// Applies a change to a call, if it is bound. What a call asked for is forgotten once it leaves the vat.
    pub fn note(&mut self, call: u64, step: CallChange)
        ensures { (c : ℕ) → call_state_at self.new c
            ≡ (if call == c then option_map (after_change step) (call_state_at self.old c)
            else call_state_at self.old c) }
    {
        if step.leaves() {
            let _ = self.requests.remove(&call);
        }
        if let Some(entry) = self.entries.get_mut(call) {
            entry.change(step);
        }
    }
}
