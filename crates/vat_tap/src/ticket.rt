//! Tickets.

ghost use Rattle.std.specs.Prelude.{◌≡◌};

use std::marker::Model;

/// What a lane answers for a record that it recorded: the record's place in the log.
#[derive(Debug, Drop)]
pub struct Ticket {
    number: u64,
}

impl Model for Ticket {
    ghost use Rattle.std.specs.Prelude.{ℕ};

    ghost Value = { ℕ };

    ghost view = { λ ticket. ticket.number };
}

impl Ticket {
    pub(crate) fn new(number: u64) -> Ticket
        ensures { result ≡ number }
    {
        Ticket { number }
    }

    /// The place of the record in the log, counted from 0.
    pub fn number(&self) -> u64
        ensures { result ≡ self.now }
    {
        self.number
    }
}
