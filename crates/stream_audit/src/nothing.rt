//! Turns of which nothing is kept.

ghost use Rattle.std.specs.Prelude.{None, true};

use std::alloc::AllocError;
use turn_taking::Turns;
use vat_log::Body;

/// Turns of which nothing is kept, so that logs that make no case are only read to their ends.
#[derive(Drop)]
pub(crate) struct NothingKept;

impl Turns for NothingKept {
    ghost use Rattle.std.specs.Prelude.{None};

    ghost taken = { λ _. None };

    fn may_come(&self, _vat: u32, _body: &Body) -> bool {
        true
    }

    fn is_crowded(&self) -> bool {
        false
    }

    fn give_up(&mut self) {}

    fn take(&mut self, _vat: u32, _body: &Body) -> Result<(), AllocError> {
        Ok(())
    }
}
