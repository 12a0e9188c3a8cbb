//! Orders.

ghost use Rattle.std.specs.Prelude.{◌≡◌};

use std::marker::Model;

/// An order of the records of several logs: the vat number of each step, whose next record comes then. Contracts see it
/// as the list of these.
#[derive(Debug, Drop)]
pub struct Order {
    vats: Vec<u32>,
}

impl Model for Order {
    ghost use Rattle.std.specs.Prelude.{List, ℕ};

    ghost Value = { List ℕ };

    ghost view = { λ order. order.vats.items };
}

impl Order {
    /// The order of these steps. It takes no memory.
    pub fn new(vats: Vec<u32>) -> Order
        ensures { result ≡ vats.items }
    {
        Order { vats }
    }

    /// The vat number of each step.
    pub fn as_slice(&self) -> &[u32]
        ensures { result.now ≡ self.now }
    {
        &self.vats
    }
}
