//! What is read side by side, and what keeps the turns.

ghost use Rattle.std.specs.Prelude.{◌≡◌, Some, None, IfSome, OnOk, OnErr, option_map, is_none, slice_get};
ghost use Rattle.std.specs.Option.{option_copied};
ghost use Rattle.turn_taking.specs.Lanes.{LaneSoFar, without_first, GoesOn, HasNext};
ghost use Rattle.turn_taking.specs.Turned.{with_turn, given_up, may_be_next};

use std::alloc::{AllocError, Global};
use vat_log::{Body, Record};

/// A log that is read ahead of what is taken of it.
pub trait CaseLane {
    ghost use Rattle.std.specs.Prelude.{Option};
    ghost use Rattle.turn_taking.specs.Lanes.{LaneSoFar};

    // what was read, unless memory was refused
    ghost so_far: { Self → Option LaneSoFar };

    /// The vat whose log it is.
    fn vat(&self) -> u32
        ensures { IfSome (so_far self.now) (λ lane. result ≡ lane.log.vat) };

    /// The first record that isn't taken.
    fn first(&self) -> Option<&Record>
        ensures { IfSome (so_far self.now) (λ lane. option_copied result ≡ slice_get lane.ahead 0) };

    /// The first record is taken.
    fn leave(&mut self)
        ensures { so_far self.new ≡ option_map without_first (so_far self.old) };

    /// Whether memory was refused, so that nothing more is known.
    fn is_refused(&self) -> bool
        ensures { result ≡ is_none (so_far self.now) };

    /// Reads some records ahead where none is, and may where fewer than so many are. How many, is its own affair, but one is ahead
    /// then if there is one.
    fn fill(&mut self, alloc: Global, enough: usize)
        ensures { (lane : LaneSoFar) → so_far self.old ≡ Some lane
            → IfSome (so_far self.new) (λ longer. GoesOn lane longer × HasNext longer) };
}

/// What keeps the turns of a case.
pub trait Turns {
    ghost use Rattle.std.specs.Prelude.{Option};
    ghost use Rattle.turn_taking.specs.Turned.{Taken};

    // the turns that were taken, unless memory was refused
    ghost taken: { Self → Option Taken };

    /// Whether this may be the next record of the vat.
    fn may_come(&self, vat: u32, body: &Body) -> bool
        ensures { IfSome (taken self.now) (λ taken. result ≡ may_be_next taken vat body.now) };

    /// Whether so many frames are under way that who sent one had better wait until some are received. No order depends on it.
    fn is_crowded(&self) -> bool;

    /// No order of the records that are left fits those that were taken: from here on each is taken as it comes.
    fn give_up(&mut self)
        ensures { taken self.new ≡ option_map given_up (taken self.old) };

    /// A vat takes its turn with this record.
    fn take(&mut self, vat: u32, body: &Body) -> Result<(), AllocError>
        ensures ok { OnOk result (taken self.new ≡ option_map (with_turn (vat, body.now)) (taken self.old)) }
        ensures err { OnErr result (taken self.new ≡ None) };
}
