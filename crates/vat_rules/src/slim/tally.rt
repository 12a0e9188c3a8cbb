//! Good records, and how many of them deliver a call.

ghost use Rattle.std.specs.Prelude.{◌≡◌, ◌+◌, ◌<◌, ◌^◌, ◌∷◌, [], IfOk, OnErr, MatchOption, count_by, length, reverse, if◌then◌else◌};
ghost use Rattle.vat_rules.specs.Rules.{rules};
ghost use Rattle.vat_rules.specs.Judged.{IsGoodBy, BreaksFirst};
ghost use Rattle.vat_rules.specs.Telling.{entries_back, is_delivery};

use crate::audit::is_delivery;
use crate::rule::Rule;
use crate::slim::story::SlimStory;
use crate::taking::apply_if_good;
use rpc_view::Edition;
use std::alloc::{AllocError, Global};
use std::marker::Model;
use vat_view::{DecodedRecord, VatState};

/// Good records that were applied, and how many of them deliver a call. Contracts see it as the list of these records, the
/// newest first; it keeps none of them.
#[derive(Drop)]
pub(crate) struct Tally {
    state: VatState,
    count: u64,
    delivered: u64,
}

impl Model for Tally {
    ghost use Rattle.std.specs.Prelude.{◌≡◌, count_by, length};
    ghost use Rattle.decoded_records.specs.Past.{Past};
    ghost use Rattle.vat_rules.specs.Telling.{is_delivery};

    ghost Value = { Past };

    ghost view = { λ tally. tally.state };

    ghost invariant = { λ tally. (tally.count ≡ length tally.state)
        × (tally.delivered ≡ count_by is_delivery tally.state) };
}

/// How many calls were delivered, with one more record.
fn counted(delivered: u64, event: &DecodedRecord) -> u64
    requires { delivered + 1 < 2 ^ 64 }
    ensures { result ≡ delivered + (if is_delivery event.now then 1 else 0) }
{
    if is_delivery(event) {
        delivered + 1
    } else {
        delivered
    }
}

impl Tally {
    /// Before any record. It takes no memory.
    pub(crate) fn new(alloc: Global) -> Tally
        ensures { result ≡ [] }
    {
        Tally {
            state: VatState::new(alloc),
            count: 0,
            delivered: 0,
        }
    }

    /// How many records there are.
    pub(crate) fn len(&self) -> u64
        ensures { result ≡ length self.now }
    {
        self.count
    }

    /// Judges a record by an edition, and applies and counts it if it is good; else the first rule that it breaks.
    ///
    /// # Errors
    ///
    /// Out of memory, and then it is as it was.
    #[inline(always)]
    pub(crate) fn take(
        &mut self,
        alloc: Global,
        edition: Edition,
        event: &DecodedRecord,
    ) -> Result<Option<Rule>, AllocError>
        ensures ok { IfOk result (λ r. MatchOption r
            (IsGoodBy edition self.old event.now × (self.new ≡ event.now ∷ self.old))
            (λ rule. BreaksFirst edition rules self.old event.now rule)) }
        ensures err { OnErr result (self.new ≡ self.old) }
    {
        let Some(count) = self.count.checked_add(1) else {
            return Err(AllocError);
        };
        match apply_if_good(alloc, edition, &mut self.state, event)? {
            Some(rule) => Ok(Some(rule)),
            None => {
                self.count = count;
                self.delivered = counted(self.delivered, event);
                Ok(None)
            }
        }
    }

    /// What the records tell.
    pub(crate) fn into_story(self) -> SlimStory
        ensures { result ≡ record {
          entries = reverse (entries_back self);
          delivered = count_by is_delivery self;
        } }
    {
        let Tally {
            state,
            count,
            delivered,
        } = self;
        SlimStory::new(state.into_past(), count, delivered)
    }
}
