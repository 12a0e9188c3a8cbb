//! The table of calls that were answered by other calls.

ghost use Rattle.std.specs.Prelude.{◌≡◌, ◌==◌, ◌⊎◌, ℕ, Option, None, Some, OnOk, IsTrue, unwrap_or, if◌then◌else◌};
ghost use Rattle.vat_view.specs.declared.tables.references.Shortcut.{Shortcut};
ghost use Rattle.vat_view.specs.Glue.TurnTables.{handover_in, call_ahead_in, has_room_for_handover, handovers_len, own_leap, IsOwnOrOldCall};

use crate::tables::references::{Shortcut, own_leap};
use rising_table::RisingTable;
use std::alloc::{AllocError, Global};

/// By which call a record answered another.
#[derive(Clone, Copy)]
pub(crate) struct Handover {
    /// The number of the record in the log, counted from 0.
    pub(crate) number: usize,
    /// The call whose results are the other's.
    pub(crate) by: u64,
}

/// What is kept of a call that was answered by another.
#[derive(Clone, Copy)]
pub(crate) struct HandedCall {
    /// By which call, and where.
    handover: Handover,
    /// A call that is ahead of it.
    ahead: Shortcut,
}

/// For each call the last record that answered it by another, where one did, and a call that is ahead of it, so that a
/// walk needn't make each turn anew: each field of the one leads to the same field of the other. At first each is ahead of
/// itself; and again once the calls ahead are dropped. An entry without a record says nothing: it holds room.
#[derive(Drop)]
pub(crate) struct Handovers {
    entries: RisingTable<Option<HandedCall>>,
    dropped: bool,
}

impl Handovers {
    /// Before any record.
    pub(crate) fn new(alloc: Global) -> Handovers
        ensures handovers { (c : ℕ) → handover_in result c ≡ None }
        ensures ahead { (c : ℕ) → call_ahead_in result c ≡ None }
    {
        Handovers {
            entries: RisingTable::new(alloc),
            dropped: false,
        }
    }

    /// The last record that answered this call by another, if one did.
    pub(crate) fn of(&self, call: u64) -> Option<Handover>
        ensures { result ≡ handover_in self.now call }
    {
        match self.entries.get(call) {
            Some(Some(handed)) => Some(handed.handover),
            _ => None,
        }
    }

    /// The call that is ahead of this one: itself, where it wasn't answered by another.
    pub(crate) fn ahead(&self, call: u64) -> Shortcut
        ensures { result ≡ unwrap_or (call_ahead_in self.now call) (own_leap call) }
    {
        match self.entries.get(call) {
            Some(Some(handed)) if !self.dropped => handed.ahead,
            _ => own_leap(call),
        }
    }

    /// From now on this is ahead of a call, if that one was answered by another.
    pub(crate) fn remember(&mut self, call: u64, ahead: Shortcut)
        ensures handovers { (c : ℕ) → handover_in self.new c ≡ handover_in self.old c }
        ensures len { handovers_len self.new ≡ handovers_len self.old }
        ensures ahead { (c : ℕ) (q : Shortcut) → call_ahead_in self.new c ≡ Some q
            → (call_ahead_in self.old c ≡ Some q) ⊎ ((c ≡ call) × (q ≡ ahead)) }
    {
        if self.dropped {
            return;
        }
        let Some(Some(HandedCall { handover, .. })) = self.entries.get(call) else {
            return;
        };
        let handover = *handover;
        let _ = self
            .entries
            .replace(call, Some(HandedCall { handover, ahead }));
    }

    /// Where it is said so, each call is ahead of itself alone from now on.
    pub(crate) fn drop_ahead(&mut self, drops: bool)
        ensures handovers { (c : ℕ) → handover_in self.new c ≡ handover_in self.old c }
        ensures room { (call : Option ℕ) → has_room_for_handover self.new call
            ≡ has_room_for_handover self.old call }
        ensures ahead { IsOwnOrOldCall self.old self.new }
        ensures own { IsTrue drops → (c : ℕ) (q : Shortcut) → call_ahead_in self.new c ≡ Some q
            → q ≡ own_leap c }
    {
        if drops {
            self.dropped = true;
        }
    }

    /// How many calls have an entry.
    pub(crate) fn len(&self) -> usize
        ensures { result ≡ handovers_len self.now }
    {
        self.entries.len()
    }

    /// Makes room for this call, if there is one. What the table says stays as it is, where memory is refused too.
    pub(crate) fn make_room(&mut self, call: Option<u64>) -> Result<(), AllocError>
        ensures same { (c : ℕ) → handover_in self.new c ≡ handover_in self.old c }
        ensures same_ahead { (c : ℕ) → call_ahead_in self.new c ≡ call_ahead_in self.old c }
        ensures room { OnOk result (IsTrue (has_room_for_handover self.new call)) }
    {
        match call {
            Some(call) if !self.entries.has(call) => self.entries.put(call, None),
            _ => Ok(()),
        }
    }

    /// This answered a call by another, for which there is room.
    pub(crate) fn note(&mut self, call: u64, handover: Handover)
        requires room { IsTrue (has_room_for_handover self.old (Some call)) }
        ensures handovers { (c : ℕ) → handover_in self.new c
            ≡ (if call == c then Some handover else handover_in self.old c) }
        ensures ahead { IsOwnOrOldCall self.old self.new }
    {
        let handed = HandedCall {
            handover,
            ahead: own_leap(call),
        };
        let _ = self.entries.replace(call, Some(handed));
    }
}
