//! The table of turns.

ghost use Rattle.std.specs.Prelude.{◌≡◌, ◌==◌, ◌<◌, ◌^◌, ◌⊎◌, ℕ, unwrap_or, Option, None, Some, OnOk, IsTrue, is_some, option_map, option_and_then, if◌then◌else◌};
ghost use Rattle.std.specs.BTreeMap.{get};
ghost use Rattle.rising_table.specs.Entries.{entry_at};
ghost use Rattle.vat_view.specs.declared.record.unsettled.Unsettled.{Unsettled};
ghost use Rattle.decoded_records.specs.declared.view.View.{View};
ghost use Rattle.vat_view.specs.declared.tables.turns.turned.Turned.{Turned};
ghost use Rattle.vat_view.specs.declared.tables.references.Shortcut.{Shortcut};
ghost use Rattle.vat_view.specs.declared.record.unsettled.Unsettled.TheVariants.{Results as ResultsOf, Import as ImportToResolve};
ghost use Rattle.vat_view.specs.Types.{Promise, Import};
ghost use Rattle.decoded_records.specs.Glue.Parts.{field_path};
ghost use Rattle.vat_view.specs.Glue.TurnTables.{target_in, number_in, ended_in, turned_in, settled_at, waiting, settles, pending_cmp, has_room_for_turned, has_room_for, has_room_to_settle, handed_call, handover_at, handover_after, handovers_len, has_room_for_handover, by_handover, call_ahead_in, own_leap, IsOwnOrOldCall, SaysSameTurns, IsNoted};

use crate::record::unsettled::Unsettled;
use crate::tables::references::Shortcut;
use crate::tables::turns::handovers::{Handover, Handovers};
use crate::tables::turns::turned::{Ended, Turned};
use rising_table::RisingTable;
use std::alloc::{AllocError, Global};
use std::collections::BTreeMap;

/// What a record settles.
#[derive(Drop)]
pub(crate) struct Settling {
    /// That for which views wait, if it settles something.
    pub(crate) settled: Option<Unsettled>,
    /// The call by whose results it answers another, if there is one.
    pub(crate) by: Option<u64>,
    /// Where it turns the views that wait for it, where it doesn't so.
    pub(crate) turned: Turned,
}

/// The call that a record answers by another.
fn handed_call(settled: Option<Unsettled>, by: Option<u64>) -> Option<u64>
    ensures { result ≡ handed_call settled by }
{
    match (settled, by) {
        (Some(Unsettled::Results(call)), Some(_)) => Some(call),
        _ => None,
    }
}

/// For each thing for which views wait the number of the record that settled it, where one did, and where that record
/// turned it; and of the calls that were answered by others the last such record. Of a call with no capability in its
/// results the number is all that is kept. An entry that says nothing holds room.
#[derive(Drop)]
pub(crate) struct Settlements {
    promises: RisingTable<Ended>,
    results: RisingTable<Option<u32>>,
    turned: RisingTable<Turned>,
    imports: BTreeMap<Unsettled, Ended>,
    handovers: Handovers,
}

/// Makes room for the end of this promise.
fn make_room_for_promise(table: &mut RisingTable<Ended>, promise: u64) -> Result<(), AllocError>
    ensures same { (k : ℕ) → ended_in table.new k ≡ ended_in table.old k }
    ensures room { OnOk result (IsTrue (is_some (entry_at table.new promise))) }
{
    if table.has(promise) {
        return Ok(());
    }
    table.put(promise, Ended::Open)
}

/// Makes room for the number of the record that settled this call.
fn make_room_in(table: &mut RisingTable<Option<u32>>, call: u64) -> Result<(), AllocError>
    ensures same { (k : ℕ) → number_in table.new k ≡ number_in table.old k }
    ensures room { OnOk result (IsTrue (is_some (entry_at table.new call))) }
{
    if table.has(call) {
        return Ok(());
    }
    table.put(call, None)
}

/// Makes room for where this call's results are turned. It takes no memory where that is nowhere.
fn make_room_for_turned(
    table: &mut RisingTable<Turned>,
    call: u64,
    turned: &Turned,
) -> Result<(), AllocError>
    ensures same { (k : ℕ) → turned_in table.new k ≡ turned_in table.old k }
    ensures room { OnOk result (IsTrue (has_room_for_turned table.new call turned.now)) }
{
    if turned.is_nowhere() || table.has(call) {
        return Ok(());
    }
    table.put(call, Turned::Nowhere)
}

/// The record of this number settled this call, for which there is room.
fn note_in(table: &mut RisingTable<Option<u32>>, call: u64, number: u32)
    requires { IsTrue (is_some (entry_at table.old call)) }
    ensures { (k : ℕ) → number_in table.new k
        ≡ (if call == k then Some number else number_in table.old k) }
{
    let _ = table.replace(call, Some(number));
}

/// A promise ended so, for which there is room.
fn note_promise(table: &mut RisingTable<Ended>, promise: u64, number: u32, to: Option<u64>)
    requires { IsTrue (is_some (entry_at table.old promise)) }
    ensures { (k : ℕ) → ended_in table.new k
        ≡ (if promise == k then Some (number, to) else ended_in table.old k) }
{
    let _ = table.replace(promise, Ended::by(number, to));
}

/// This call's results are turned so, for which there is room.
fn note_turned(table: &mut RisingTable<Turned>, call: u64, turned: Turned)
    requires { IsTrue (has_room_for_turned table.old call turned) }
    ensures { (k : ℕ) → turned_in table.new k
        ≡ (if call == k then turned else turned_in table.old k) }
{
    let _ = table.replace(call, turned);
}

/// The number of the record that settled this call, if one did.
fn number_in(table: &RisingTable<Option<u32>>, call: u64) -> Option<usize>
    ensures { result ≡ number_in table.now call }
{
    match table.get(call) {
        Some(Some(number)) => Some(*number as usize),
        _ => None,
    }
}

impl Settlements {
    /// Before anything is settled.
    pub(crate) fn new(alloc: Global) -> Settlements
        ensures settlers { (v : View) → settled_at result v ≡ None }
        ensures handed { (c : ℕ) → handover_at result c ≡ None }
        ensures ahead { (c : ℕ) → call_ahead_in result.handovers c ≡ None }
    {
        Settlements {
            promises: RisingTable::new(alloc),
            results: RisingTable::new(alloc),
            turned: RisingTable::new(alloc),
            imports: BTreeMap::new(alloc),
            handovers: Handovers::new(alloc),
        }
    }

    /// Whether a record settled this promise.
    pub(crate) fn has_promise(&self, promise: u64) -> bool
        ensures { result ≡ is_some (settled_at self.now (Promise promise)) }
    {
        match self.promises.get(promise) {
            Some(ended) => ended.is_over(),
            None => false,
        }
    }

    /// The number of the record that settled this promise, if one did.
    pub(crate) fn of_promise(&self, promise: u64) -> Option<usize>
        ensures { result ≡ option_map (λ s. s.0) (settled_at self.now (Promise promise)) }
    {
        match self.promises.get(promise) {
            Some(ended) => ended.number(),
            None => None,
        }
    }

    /// The reference to which the record that settled this promise turned it, if one did.
    pub(crate) fn promise_target(&self, promise: u64) -> Option<u64>
        ensures { result ≡ option_and_then (λ s. s.1) (settled_at self.now (Promise promise)) }
    {
        match self.promises.get(promise) {
            Some(ended) => ended.target(),
            None => None,
        }
    }

    /// Whether a record settled this import.
    #[inline]
    pub(crate) fn has_import(&self, number: usize, place: usize) -> bool
        ensures { result ≡ is_some (settled_at self.now (Import number place)) }
    {
        match self.imports.get(&Unsettled::Import(number, place)) {
            Some(ended) => ended.is_over(),
            None => false,
        }
    }

    /// The reference to which the record that settled this import turned it, if one did.
    pub(crate) fn import_target(&self, number: usize, place: usize) -> Option<u64>
        ensures { result ≡ option_and_then (λ s. s.1) (settled_at self.now (Import number place)) }
    {
        match self.imports.get(&Unsettled::Import(number, place)) {
            Some(ended) => ended.target(),
            None => None,
        }
    }

    /// The number of the record that settled this import, if one did.
    pub(crate) fn of_import(&self, number: usize, place: usize) -> Option<usize>
        ensures { result ≡ option_map (λ s. s.0) (settled_at self.now (Import number place)) }
    {
        match self.imports.get(&Unsettled::Import(number, place)) {
            Some(ended) => ended.number(),
            None => None,
        }
    }

    /// The number of the record that settled this call, if one did.
    pub(crate) fn of_call(&self, call: u64) -> Option<usize>
        ensures { result ≡ number_in self.now.results call }
    {
        number_in(&self.results, call)
    }

    /// The reference to which the field of a call at this path is turned, if it is to one.
    pub(crate) fn field_target(&self, call: u64, path: &[u16]) -> Option<u64>
        ensures { result ≡ target_in path.now (turned_in self.now.turned call) }
    {
        match self.turned.get(call) {
            Some(turned) => turned.at(path),
            None => None,
        }
    }

    /// The last record that answered this call by another, if one did.
    pub(crate) fn handover_of(&self, call: u64) -> Option<Handover>
        ensures { result ≡ handover_at self.now call }
    {
        self.handovers.of(call)
    }

    /// The call that is ahead of this one: itself, where it wasn't answered by another.
    pub(crate) fn call_ahead(&self, call: u64) -> Shortcut
        ensures { result ≡ unwrap_or (call_ahead_in self.now.handovers call) (own_leap call) }
    {
        self.handovers.ahead(call)
    }

    /// From now on this is ahead of a call, if that one was answered by another.
    pub(crate) fn remember_call(&mut self, call: u64, ahead: Shortcut)
        ensures same { SaysSameTurns self.old self.new }
        ensures len { handovers_len self.new.handovers ≡ handovers_len self.old.handovers }
        ensures ahead { (c : ℕ) (q : Shortcut) → call_ahead_in self.new.handovers c ≡ Some q
            → (call_ahead_in self.old.handovers c ≡ Some q) ⊎ ((c ≡ call) × (q ≡ ahead)) }
    {
        self.handovers.remember(call, ahead);
    }

    /// Where it is said so, each call is ahead of itself alone from now on.
    pub(crate) fn drop_calls_ahead(&mut self, drops: bool)
        ensures same { SaysSameTurns self.old self.new }
        ensures ahead { IsOwnOrOldCall self.old.handovers self.new.handovers }
        ensures same_room { (turned : Turned) (s : Option Unsettled) → has_room_for self.new turned s
            ≡ has_room_for self.old turned s }
        ensures same_room_handed { (call : Option ℕ) → has_room_for_handover self.new.handovers call
            ≡ has_room_for_handover self.old.handovers call }
        ensures own { IsTrue drops → (c : ℕ) (q : Shortcut)
            → call_ahead_in self.new.handovers c ≡ Some q → q ≡ own_leap c }
    {
        self.handovers.drop_ahead(drops);
    }

    /// How many calls have an entry that says so, or room for one.
    pub(crate) fn handovers_len(&self) -> usize
        ensures { result ≡ handovers_len self.now.handovers }
    {
        self.handovers.len()
    }

    /// The call by whose results the record of this number settled this call, if it did so.
    pub(crate) fn call_behind(&self, call: u64, number: usize) -> Option<u64>
        ensures { result ≡ by_handover number (handover_at self.now call) }
    {
        match self.handovers.of(call) {
            Some(handover) if handover.number == number => Some(handover.by),
            _ => None,
        }
    }

    /// Whether a record settled before what a record settles.
    pub(crate) fn has(&self, settled: Option<Unsettled>) -> bool
        ensures { result ≡ is_some (option_and_then (λ p. settled_at self.now (waiting p)) settled) }
    {
        match settled {
            Some(Unsettled::Promise(promise)) => self.has_promise(promise),
            Some(Unsettled::Results(call)) => self.of_call(call).is_some(),
            Some(Unsettled::Import(number, place)) => self.has_import(number, place),
            None => false,
        }
    }

    /// Makes room for a call that is settled. What the table says stays as it is, where memory is refused too.
    fn make_room_for_results(&mut self, call: u64, turned: &Turned) -> Result<(), AllocError>
        ensures same { (v : View) → settled_at self.new v ≡ settled_at self.old v }
        ensures handovers { self.new.handovers ≡ self.old.handovers }
        ensures room { OnOk result (IsTrue (is_some (entry_at self.new.results call))) }
        ensures room_turned { OnOk result
            (IsTrue (has_room_for_turned self.new.turned call turned.now)) }
    {
        make_room_in(&mut self.results, call)?;
        make_room_for_turned(&mut self.turned, call, turned)
    }

    /// Makes room for an import that is resolved. What the table says stays as it is, where memory is refused too.
    fn make_room_for_import(&mut self, number: usize, place: usize) -> Result<(), AllocError>
        ensures same { (v : View) → settled_at self.new v ≡ settled_at self.old v }
        ensures handovers { self.new.handovers ≡ self.old.handovers }
        ensures room { OnOk result
            (IsTrue (is_some (get pending_cmp self.new.imports (ImportToResolve number place)))) }
    {
        let import = Unsettled::Import(number, place);
        if self.imports.contains_key(&import) {
            return Ok(());
        }
        self.imports.insert(import, Ended::Open)?;
        Ok(())
    }

    /// Makes room for the record that settled something. What the table says stays as it is, where memory is refused
    /// too.
    fn make_room_to_settle(&mut self, settling: &Settling) -> Result<(), AllocError>
        ensures same { (v : View) → settled_at self.new v ≡ settled_at self.old v }
        ensures handovers { self.new.handovers ≡ self.old.handovers }
        ensures room { OnOk result (IsTrue (has_room_to_settle self.new settling.now)) }
    {
        match settling.settled {
            Some(Unsettled::Promise(promise)) => {
                make_room_for_promise(&mut self.promises, promise)
            }
            Some(Unsettled::Results(call)) => self.make_room_for_results(call, &settling.turned),
            Some(Unsettled::Import(brought, place)) => self.make_room_for_import(brought, place),
            None => Ok(()),
        }
    }

    /// Makes room for a call that is answered by another, if there is one. What the table says stays as it is, where
    /// memory is refused too.
    fn make_room_for_handover(&mut self, call: Option<u64>) -> Result<(), AllocError>
        ensures same { (v : View) → settled_at self.new v ≡ settled_at self.old v }
        ensures same_handed { (c : ℕ) → handover_at self.new c ≡ handover_at self.old c }
        ensures same_ahead { IsOwnOrOldCall self.old.handovers self.new.handovers }
        ensures same_room { (turned : Turned) (s : Option Unsettled) → has_room_for self.new turned s
            ≡ has_room_for self.old turned s }
        ensures room { OnOk result (IsTrue (has_room_for_handover self.new.handovers call)) }
    {
        self.handovers.make_room(call)
    }

    /// Makes room for what the record of this number settles. What the table says stays as it is, where memory is
    /// refused too; a number that is too great, which no log in memory reaches, is answered so.
    pub(crate) fn make_room(&mut self, settling: &Settling, number: usize) -> Result<(), AllocError>
        ensures same { SaysSameTurns self.old self.new }
        ensures ahead { IsOwnOrOldCall self.old.handovers self.new.handovers }
        ensures room { OnOk result (IsTrue (has_room_to_settle self.new settling.now)) }
        ensures room_handed { OnOk result (IsTrue (has_room_for_handover self.new.handovers
            (handed_call settling.now.settled settling.now.by))) }
        ensures small { OnOk result (number < 2 ^ 32) }
    {
        if number > u32::MAX as usize {
            return Err(AllocError);
        }
        self.make_room_to_settle(settling)?;
        self.make_room_for_handover(handed_call(settling.settled, settling.by))
    }

    /// The record of this number settled a call, for which there is room, and turned its fields so.
    fn note_results(&mut self, call: u64, number: u32, turned: Turned)
        requires room { IsTrue (is_some (entry_at self.old.results call)) }
        requires room_turned { IsTrue (has_room_for_turned self.old.turned call turned) }
        ensures settlers { (v : View) → settled_at self.new v
            ≡ (if settles v (Some (ResultsOf call))
            then Some (number, target_in (field_path v) turned) else settled_at self.old v) }
        ensures handovers { self.new.handovers ≡ self.old.handovers }
    {
        note_in(&mut self.results, call, number);
        note_turned(&mut self.turned, call, turned);
    }

    /// The record of this number resolved an import, for which there is room, to this reference or to nothing.
    fn note_import(&mut self, brought: usize, place: usize, number: u32, to: Option<u64>)
        requires { IsTrue (is_some (get pending_cmp self.old.imports (ImportToResolve brought place))) }
        ensures settlers { (v : View) → settled_at self.new v
            ≡ (if settles v (Some (ImportToResolve brought place))
            then Some (number, to) else settled_at self.old v) }
        ensures handovers { self.new.handovers ≡ self.old.handovers }
    {
        let import = Unsettled::Import(brought, place);
        if let Some(ended) = self.imports.get_mut(&import) {
            *ended = Ended::by(number, to);
        }
    }

    /// The record of this number settled this, for which there is room.
    fn note_settled(&mut self, settling: Settling, number: u32)
        requires { IsTrue (has_room_to_settle self.old settling) }
        ensures settlers { (v : View) → settled_at self.new v
            ≡ (if settles v settling.settled
            then Some (number, target_in (field_path v) settling.turned) else settled_at self.old v) }
        ensures handovers { self.new.handovers ≡ self.old.handovers }
    {
        match settling.settled {
            Some(Unsettled::Promise(promise)) => {
                note_promise(&mut self.promises, promise, number, settling.turned.at(&[]));
            }
            Some(Unsettled::Results(call)) => self.note_results(call, number, settling.turned),
            Some(Unsettled::Import(brought, place)) => {
                self.note_import(brought, place, number, settling.turned.at(&[]));
            }
            None => {}
        }
    }

    /// The record of this number answered a call by another, for which there is room, if it did so.
    fn note_handover(&mut self, settled: Option<Unsettled>, by: Option<u64>, number: usize)
        requires { IsTrue (has_room_for_handover self.old.handovers (handed_call settled by)) }
        ensures handed { (c : ℕ) → handover_at self.new c
            ≡ handover_after settled by number c (handover_at self.old c) }
        ensures same { (v : View) → settled_at self.new v ≡ settled_at self.old v }
        ensures ahead { IsOwnOrOldCall self.old.handovers self.new.handovers }
    {
        if let (Some(Unsettled::Results(call)), Some(by)) = (settled, by) {
            self.handovers.note(call, Handover { number, by });
        }
    }

    /// The record of this number settled this, for which there is room.
    pub(crate) fn note(&mut self, settling: Settling, number: usize)
        requires room { IsTrue (has_room_to_settle self.old settling) }
        requires room_handed { IsTrue (has_room_for_handover self.old.handovers
            (handed_call settling.settled settling.by)) }
        requires small { number < 2 ^ 32 }
        ensures { IsNoted settling number self.old self.new }
    {
        let (settled, by) = (settling.settled, settling.by);
        self.note_settled(settling, number as u32);
        self.note_handover(settled, by, number);
    }
}
