//! What a good log tells, without its records.

ghost use Rattle.std.specs.Prelude.{◌≡◌, length, reverse};
ghost use Rattle.vat_rules.specs.Telling.{entries_back};

use erased::Erased;
use std::fmt::{self, Debug, Formatter, Write};
use std::marker::Model;
use vat_view::DecodedRecord;

/// What a good log tells, of which only how many records it has and how many calls were delivered are kept. Contracts
/// see all that the log tells, as of a [`Story`](crate::Story).
pub struct SlimStory {
    past: Erased<DecodedRecord>,
    records: u64,
    delivered: u64,
}

impl Drop for SlimStory {
    fn drop(self) {
        let Self {
            past: _,
            records: _,
            delivered: _,
        } = self;
    }
}

impl Model for SlimStory {
    ghost use Rattle.std.specs.Prelude.{◌≡◌, length, reverse};
    ghost use Rattle.vat_rules.specs.LogFacts.{Told};
    ghost use Rattle.vat_rules.specs.Telling.{entries_back};

    ghost Value = { Told };

    ghost view = { λ story. record {
      entries = reverse (entries_back story.past.items);
      delivered = story.delivered;
    } };

    ghost invariant = { λ story. story.records ≡ length story.past.items };
}

impl Debug for SlimStory {
    fn fmt<W: Write>(&self, f: &mut Formatter<W>) -> fmt::Result {
        f.debug_struct("SlimStory")
            .field("records", &self.records)
            .field("delivered", &self.delivered)
            .finish()
    }
}

impl SlimStory {
    pub(crate) fn new(past: Erased<DecodedRecord>, records: u64, delivered: u64) -> SlimStory
        requires { records ≡ length past.items }
        ensures { result ≡ record {
          entries = reverse (entries_back past.items);
          delivered = delivered;
        } }
    {
        SlimStory {
            past,
            records,
            delivered,
        }
    }

    /// How many records the log has.
    pub fn records(&self) -> u64
        ensures { result ≡ length self.now.entries }
    {
        self.records
    }

    /// How many records deliver a call.
    pub fn delivered(&self) -> u64
        ensures { result ≡ self.now.delivered }
    {
        self.delivered
    }
}
