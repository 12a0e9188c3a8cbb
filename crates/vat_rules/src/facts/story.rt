//! What a good log tells.

ghost use Rattle.std.specs.Prelude.{◌≡◌, map};

use crate::facts::compact::RecordFacts;
use crate::facts::gathered::Gathered;
use std::marker::Model;
use vat_view::DecodedRecord;

/// What a good log tells: each record with what its numbers stand for, and how many calls were delivered.
#[derive(Debug)]
pub struct Story {
    gathered: Gathered,
    delivered: u64,
}

impl Drop for Story {
    fn drop(self) {
        let Self {
            gathered: _,
            delivered: _,
        } = self;
    }
}

impl Model for Story {
    ghost use Rattle.vat_rules.specs.LogFacts.{Told};

    ghost Value = { Told };

    ghost view = { λ story. record { entries = story.gathered; delivered = story.delivered } };
}

impl Story {
    pub(crate) fn new(gathered: Gathered, delivered: u64) -> Story
        ensures { result ≡ record { entries = gathered; delivered = delivered } }
    {
        Story {
            gathered,
            delivered,
        }
    }

    /// The records with their messages, in their order.
    pub fn events(&self) -> &[DecodedRecord]
        ensures { result.now ≡ map (λ entry. entry.event) self.now.entries }
    {
        self.gathered.events()
    }

    /// What the numbers of each record stand for, in the order of the records.
    pub fn facts(&self) -> &[RecordFacts]
        ensures { result.now ≡ map (λ entry. entry.facts) self.now.entries }
    {
        self.gathered.facts()
    }

    /// How many records deliver a call.
    pub fn delivered(&self) -> u64
        ensures { result ≡ self.now.delivered }
    {
        self.delivered
    }
}
