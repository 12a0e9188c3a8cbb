//! The turns of a whole case.

ghost use Rattle.std.specs.Prelude.{◌≡◌, ◌-◌, [], List, Option, Some, None, false, true, IfOk, IfSome, is_some, length, option_map, OnOk, OnErr};
ghost use Rattle.call_order.specs.Fault.{IsFaultBy};
ghost use Rattle.lock_step.specs.Links.{IsFoundOf, link_on};
ghost use Rattle.lock_step.specs.Taking.{count_turns, passes_delivery, turned, case_with_turn};
ghost use Rattle.turn_taking.specs.Turns.{AreAll, order_of};
ghost use Rattle.vat_log.specs.Log.{Log};
ghost use Rattle.vat_log.specs.Passages.{receives, sends};

use crate::case_counts::CaseCounts;
use crate::link_states::LinkStates;
use call_order::CallOrder;
use case_book::Link;
use link_check::LinkOutcome;
use std::alloc::{AllocError, Global};
use std::marker::Model;
use turn_taking::{Turns, TurnsTaken};
use vat_log::Body;

/// How many frames may be under way before a vat that sent one waits for its next turn.
const CROWD: u64 = 4096;

/// A case while the records of its logs are taken one by one, each with its vat. As long as they come in an order, each is a
/// turn. Where none of those that are left may come next, it gives up the order, and takes the rest as it comes, so that links are still
/// compared to their ends. Contracts see the links of the case, the turns in order, all turns, the newest first, and whether it
/// gave up; none of this, once memory was refused.
#[derive(Drop)]
pub struct CaseTurns {
    turns: TurnsTaken,
    calls: CallOrder,
    states: LinkStates,
    counts: CaseCounts,
    is_stuck: bool,
    is_refused: bool,
}

impl Model for CaseTurns {
    ghost use Rattle.std.specs.Prelude.{◌≡◌, false, Option};
    ghost use Rattle.lock_step.specs.Taking.{Taken};
    ghost use Rattle.lock_step.specs.Tied.{AreTied, taken_unless};

    ghost Value = { Option Taken };

    ghost view = { λ case. taken_unless case.is_refused case.is_stuck case.turns case.states };

    ghost invariant = { λ case. case.is_refused ≡ false → AreTied case.turns case.calls case.states case.counts };
}

impl CaseTurns {
    /// A case with these links, before any turn. The only error is that memory ran out.
    pub fn new(alloc: Global, links: &[Link]) -> Result<CaseTurns, AllocError>
        ensures { IfOk result (λ case. case ≡ Some (record { links = links.now; in_order = []; all = []; is_stuck = false })) }
    {
        Ok(CaseTurns {
            turns: TurnsTaken::new(alloc),
            calls: CallOrder::new(alloc),
            states: LinkStates::new(alloc, links)?,
            counts: CaseCounts::new(),
            is_stuck: false,
            is_refused: false,
        })
    }

    /// Takes a record, unless memory was refused before. Where it is refused now, no more is said of the parts.
    fn take_all(&mut self, vat: u32, body: &Body) -> Result<(), AllocError>
        ensures ok { OnOk result (self.new ≡ option_map (case_with_turn (vat, body.now)) self.old) }
        ensures err { OnErr result (self.new ≡ None) }
    {
        if self.is_refused {
            return Err(AllocError);
        }
        self.is_refused = true;
        if !self.is_stuck {
            self.turns.take(vat, body)?;
            self.calls.take(vat, body)?;
        }
        self.states.take(vat, body)?;
        self.counts.add(body)?;
        self.is_refused = false;
        Ok(())
    }

    /// Where the run of good logs breaks the order of calls, by the order in which the vats took their turns, as
    /// [`CallOrder::fault`] says. It holds once all records of the logs are taken in order.
    pub fn fault(&self) -> Option<(u32, u32)>
        ensures { IfSome self.now (λ taken. (logs : List Log) → AreAll logs taken.in_order
            → IsFaultBy logs (order_of taken.in_order) result) }
    {
        self.calls.fault()
    }

    /// What is found of a link, if these were all records, as [`LinkStates::outcome`] says.
    pub fn outcome(&self, link: &Link) -> Option<LinkOutcome>
        ensures some { IfSome self.now (λ taken. link_on taken.links link.now.connection ≡ Some link.now
            → is_some result ≡ true) }
        ensures found { IfSome self.now (λ taken. IfSome result (IsFoundOf link.now taken.all)) }
    {
        self.states.outcome(link)
    }

    /// How many records were taken, those that only passed among them.
    pub fn records(&self) -> u64
        ensures { IfSome self.now (λ taken. result ≡ length taken.all) }
    {
        self.counts.records
    }

    /// How many of them deliver a call.
    pub fn delivered(&self) -> u64
        ensures { IfSome self.now (λ taken. result ≡ count_turns passes_delivery taken.all) }
    {
        self.counts.delivered
    }

    /// How many frames are under way: how many more were sent than received.
    pub fn under_way(&self) -> u64
        ensures { IfSome self.now (λ taken. result ≡ count_turns sends taken.all - count_turns receives taken.all) }
    {
        self.counts.sent.saturating_sub(self.counts.received)
    }
}

impl Turns for CaseTurns {
    ghost use Rattle.std.specs.Option.{option_map};
    ghost use Rattle.lock_step.specs.Taking.{turned};

    ghost taken = { λ case. option_map turned case };

    fn may_come(&self, vat: u32, body: &Body) -> bool {
        self.is_stuck || self.turns.may_follow(vat, body)
    }

    fn is_crowded(&self) -> bool {
        self.under_way() > CROWD
    }

    fn give_up(&mut self) {
        self.is_stuck = true;
    }

    /// A vat takes its turn with this record, the next of its log.
    ///
    /// # Errors
    ///
    /// Out of memory, now or at an earlier record: once one is refused, so is each after it. A vat's record behind
    /// 4,294,967,295 others is refused too.
    fn take(&mut self, vat: u32, body: &Body) -> Result<(), AllocError> {
        self.take_all(vat, body)
    }
}
