//! What was sent on connections, and what comes next there.
//!
//! A send is looked at twice for each vat that uses its connection, so a step takes a look-up or two, however long the run.

ghost use Rattle.std.specs.Prelude.{◌≡◌, ◌==◌, ◌&&◌, ◌<◌, ◌∷◌, ◌++◌, ◌≢◌, ℕ, List, [], Some, length, take, get_or, option_and_then, if◌then◌else◌, IfOk, OnOk, OnErr};
ghost use Rattle.call_trace.specs.Glue.Channels.{noted_sends, sends_behind, by_others, message_by, AreLines};
ghost use Rattle.call_trace.specs.Running.{coming_next};
ghost use Rattle.call_trace.specs.Types.{Message, Cap, Step};
ghost use Rattle.run_model.specs.declared.step.Step.TheVariants.{Send, Receive};

use std::alloc::{AllocError, Global};
use std::collections::BTreeMap;

/// The place, from this one on, where another vat than this sent first, or a place behind them all.
fn first_of_others(sends: &[(u32, usize)], from: usize, vat: u32) -> usize
    ensures none_between { by_others vat (take result sends.now)
        ≡ by_others vat (take from sends.now) }
    ensures other { result < length sends.now → (get_or sends.now result (0, 0)).0 ≢ vat }
{
    let mut place = from;
    while place < sends.len() && sends[place].0 == vat {
        place += 1;
    }
    place
}

/// What the steps so far sent on each connection, and how far each vat received it.
#[derive(Drop)]
pub(crate) struct Channels {
    alloc: Global,
    /// For each connection the sends on it in their order: whose each is, and the number of its step.
    sends: BTreeMap<u32, Vec<(u32, usize)>>,
    /// For each vat and connection how many of the sends on it the vat has behind it: those up to the last that it received.
    passed: BTreeMap<(u32, u32), usize>,
}

impl Channels {
    /// Before any step.
    pub(crate) fn new(alloc: Global) -> Channels
        ensures { AreLines [] result }
    {
        Channels {
            alloc,
            sends: BTreeMap::new(alloc),
            passed: BTreeMap::new(alloc),
        }
    }

    /// The sends on this connection.
    fn on(&self, connection: u32) -> &[(u32, usize)]
        ensures { result.now ≡ noted_sends self.now connection }
    {
        match self.sends.get(&connection) {
            Some(sends) => sends,
            None => &[],
        }
    }

    /// How many of the sends on this connection this vat has behind it.
    fn passed_by(&self, vat: u32, connection: u32) -> usize
        ensures { result ≡ sends_behind self.now vat connection }
    {
        self.passed.get(&(vat, connection)).copied().unwrap_or(0)
    }

    /// Puts one more behind the sends on this connection.
    fn push(&mut self, connection: u32, sent: (u32, usize)) -> Result<(), AllocError>
        ensures ok { OnOk result ((k : ℕ) → noted_sends self.new k
            ≡ (if connection == k then noted_sends self.old k ++ sent ∷ []
            else noted_sends self.old k)) }
        ensures err { OnErr result ((k : ℕ) → noted_sends self.new k ≡ noted_sends self.old k) }
        ensures passed { (v k : ℕ) → sends_behind self.new v k ≡ sends_behind self.old v k }
    {
        match self.sends.get_mut(&connection) {
            Some(sends) => sends.push(sent)?,
            None => {
                let sends = vec![in self.alloc; sent]?;
                self.sends.insert(connection, sends)?;
            }
        }
        Ok(())
    }

    /// The step of this number, which comes now, sends on this connection. Where memory is refused, all stays as it was.
    pub(crate) fn note_sent(
        &mut self,
        vat: u32,
        connection: u32,
        step: usize,
    ) -> Result<(), AllocError>
        ensures ok { OnOk result ((before : List Step) (m : Message) → length before ≡ step
            → AreLines before self.old → AreLines (Send vat connection m ∷ before) self.new) }
        ensures err { OnErr result ((before : List Step) → AreLines before self.old
            → AreLines before self.new) }
    {
        self.push(connection, (vat, step))
    }

    /// This vat has so many of the sends on this connection behind it.
    fn pass(&mut self, vat: u32, connection: u32, count: usize) -> Result<(), AllocError>
        ensures sends { (k : ℕ) → noted_sends self.new k ≡ noted_sends self.old k }
        ensures passed { OnOk result ((v k : ℕ) → sends_behind self.new v k
            ≡ (if (vat == v) && (connection == k) then count else sends_behind self.old v k)) }
    {
        self.passed.insert((vat, connection), count)?;
        Ok(())
    }

    /// This vat receives now what comes next to it on this connection, which is the message of the step of this number.
    pub(crate) fn receive(&mut self, vat: u32, connection: u32) -> Result<Option<usize>, AllocError>
        ensures next { IfOk result (λ number. (before : List Step) → AreLines before self.old
            → coming_next vat connection before ≡ option_and_then (message_by before) number) }
        ensures received { OnOk result ((before : List Step) (m : Message) (bound : List Cap)
            → coming_next vat connection before ≡ Some m → AreLines before self.old
            → AreLines (Receive vat connection m bound ∷ before) self.new) }
    {
        let sends = self.on(connection);
        let place = first_of_others(sends, self.passed_by(vat, connection), vat);
        let Some((_, step)) = sends.get(place) else {
            return Ok(None);
        };
        let step = *step;
        self.pass(vat, connection, place + 1)?;
        Ok(Some(step))
    }
}
