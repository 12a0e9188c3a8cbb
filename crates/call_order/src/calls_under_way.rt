//! The calls that are under way on connections.

ghost use Rattle.std.specs.Prelude.{◌≡◌, ◌==◌, ◌++◌, ◌∷◌, ℕ, [], None, OnOk, drop, if◌then◌else◌, slice_get};
ghost use Rattle.call_order.specs.Glue.UnderWay.{are_ends, calls_to, calls_to_on, one_of, one_with, IsSent, IsReceived};
ghost use Rattle.std.specs.Prelude.{Some};
ghost use Rattle.std.specs.Bool.{beq};

use run_model::Name;
use std::alloc::{AllocError, Global};
use std::collections::{BTreeMap, VecDeque};

/// The calls that are under way on a connection, which has two ends: the first sent first.
#[derive(Drop)]
pub(crate) struct ConnectionCalls {
    /// The vat that sent a call there first.
    one: u32,
    from_one: VecDeque<Name>,
    from_others: VecDeque<Name>,
}

impl ConnectionCalls {
    /// Before this vat sends the first call.
    fn new(alloc: Global, vat: u32) -> ConnectionCalls
        ensures one { result.one ≡ vat }
        ensures calls { (v : ℕ) → calls_to_on result v ≡ [] }
    {
        ConnectionCalls {
            one: vat,
            from_one: VecDeque::new(alloc),
            from_others: VecDeque::new(alloc),
        }
    }

    /// A vat sends a call.
    fn send(&mut self, vat: u32, name: Name) -> Result<(), AllocError>
        ensures one { self.new.one ≡ self.old.one }
        ensures calls { OnOk result ((v : ℕ) → calls_to_on self.new v
            ≡ (if are_ends self.old.one vat v then calls_to_on self.old v ++ name ∷ [] else calls_to_on self.old v)) }
    {
        if vat == self.one {
            self.from_one.push_back(name)?;
        } else {
            self.from_others.push_back(name)?;
        }
        Ok(())
    }

    /// A vat receives the first of the calls that are under way to it.
    fn receive(&mut self, vat: u32) -> Option<Name>
        ensures one { self.new.one ≡ self.old.one }
        ensures first { result ≡ slice_get (calls_to_on self.old vat) 0 }
        ensures calls { (v : ℕ) → calls_to_on self.new v
            ≡ (if beq (self.old.one == vat) (self.old.one == v) then drop 1 (calls_to_on self.old v) else calls_to_on self.old v) }
    {
        if vat == self.one {
            self.from_others.pop_front()
        } else {
            self.from_one.pop_front()
        }
    }
}

/// The calls that are under way on each connection.
#[derive(Drop)]
pub(crate) struct CallsUnderWay {
    alloc: Global,
    connections: BTreeMap<u32, ConnectionCalls>,
}

impl CallsUnderWay {
    /// Before any call is sent.
    pub(crate) fn new(alloc: Global) -> CallsUnderWay
        ensures ones { (k : ℕ) → one_of result k ≡ None }
        ensures calls { (v k : ℕ) → calls_to result v k ≡ [] }
    {
        CallsUnderWay {
            alloc,
            connections: BTreeMap::new(alloc),
        }
    }

    /// A vat sends a call on a connection.
    pub(crate) fn send(&mut self, connection: u32, vat: u32, name: Name) -> Result<(), AllocError>
        ensures { OnOk result (IsSent connection vat name (one_with self.old connection vat) self.old self.new) }
    {
        match self.connections.get_mut(&connection) {
            Some(calls) => calls.send(vat, name),
            None => {
                let mut calls = ConnectionCalls::new(self.alloc, vat);
                calls.send(vat, name)?;
                self.connections.insert(connection, calls)?;
                Ok(())
            }
        }
    }

    /// A vat receives the first of the calls that are under way to it on a connection.
    pub(crate) fn receive(&mut self, connection: u32, vat: u32) -> Option<Name>
        ensures { IsReceived connection vat result self.old self.new }
    {
        match self.connections.get_mut(&connection) {
            Some(calls) => calls.receive(vat),
            None => None,
        }
    }
}
