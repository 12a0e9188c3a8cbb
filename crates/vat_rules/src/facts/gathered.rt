//! What is gathered of a log's records as they are judged.

ghost use Rattle.std.specs.Prelude.{◌≡◌, ◌∷◌, [], ◌++◌, map, IfOk, OnOk, OnErr};

use crate::facts::compact::RecordFacts;
use std::alloc::{AllocError, Global};
use std::marker::Model;
use vat_view::DecodedRecord;

/// The records of a log so far, each with what its numbers stand for. Contracts see the list of these, in their order.
#[derive(Debug)]
pub(crate) struct Gathered {
    events: Vec<DecodedRecord>,
    facts: Vec<RecordFacts>,
}

impl Drop for Gathered {
    fn drop(self) {
        let Self {
            events: _,
            facts: _,
        } = self;
    }
}

impl Model for Gathered {
    ghost use Rattle.std.specs.Prelude.{◌≡◌, List, length};
    ghost use Rattle.vat_rules.specs.LogFacts.{Entry};
    ghost use Rattle.vat_rules.specs.Glue.Facts.{entries_with};

    ghost Value = { List Entry };

    ghost view = { λ gathered. entries_with gathered.events.items gathered.facts.items };

    ghost invariant = { λ gathered. length gathered.events.items ≡ length gathered.facts.items };
}

impl Gathered {
    /// Nothing, with room for the facts of so many records.
    pub(crate) fn with_room(alloc: Global, records: usize) -> Result<Gathered, AllocError>
        ensures { IfOk result (λ gathered. gathered ≡ []) }
    {
        Ok(Gathered {
            events: Vec::new(alloc),
            facts: Vec::with_capacity(alloc, records)?,
        })
    }

    /// Puts a record behind these, with what its numbers stand for. Where memory is refused, nothing changes.
    pub(crate) fn push(
        &mut self,
        event: DecodedRecord,
        facts: RecordFacts,
    ) -> Result<(), AllocError>
        ensures ok { OnOk result
            (self.new ≡ self.old ++ record { event = event; facts = facts } ∷ []) }
        ensures err { OnErr result (self.new ≡ self.old) }
    {
        self.events.reserve(1)?;
        self.facts.push(facts)?;
        self.events.push_reserved(event);
        Ok(())
    }

    /// The records, in their order.
    pub(crate) fn events(&self) -> &[DecodedRecord]
        ensures { result.now ≡ map (λ entry. entry.event) self.now }
    {
        &self.events
    }

    /// What the numbers of each record stand for, in the order of the records.
    pub(crate) fn facts(&self) -> &[RecordFacts]
        ensures { result.now ≡ map (λ entry. entry.facts) self.now }
    {
        &self.facts
    }
}
