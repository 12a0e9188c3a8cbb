//! The ticket word: what each seat at it knows, and the steps that may be taken. Nothing of it but the word is there when
//! the program runs.

use atomic_table::{Join, Play, Split, Table, TableRule};
use std::alloc::Global;
use std::collections::LinkedList;

/// What a seat knows. No value of it is made.
pub struct SeatKnowledge {
    /// How many tickets it may have.
    pub room: u64,
    /// How many of these each lane gets.
    pub share: u64,
    /// The tickets that it has, in the order in which it drew them.
    pub tickets: LinkedList<u64>,
}

/// What holds of the word and of all seats between any two steps.
pub struct TicketRule;

impl TableRule<(), SeatKnowledge, u64> for TicketRule {
    ghost use Rattle.std.specs.Prelude.{[]};
    ghost use Rattle.vat_tap.specs.Glue.Rule.{Kept, view};

    ghost holds = { λ _ state. Kept 1048576 state };

    ghost first = { λ share. view 1048576 share [] };
}

/// A lane's seat is split from the tap's.
pub struct SeatSplit;

impl Split<SeatKnowledge> for SeatSplit {
    ghost use Rattle.vat_tap.specs.Glue.Rule.{without_share, a_share};

    ghost left = { without_share };

    ghost right = { a_share };
}

/// A lane's seat is joined to the tap's.
pub struct Closing;

impl Join<SeatKnowledge> for Closing {
    ghost use Rattle.vat_tap.specs.Glue.Rule.{together, spent_seat};

    ghost both = { together };

    ghost spent = { spent_seat };
}

/// A ticket is drawn.
pub struct Drawing;

impl Play<(), SeatKnowledge> for Drawing {
    ghost use Rattle.vat_tap.specs.Glue.Rule.{Draws};

    ghost then = { λ _ me found after. Draws 1048576 me found after };
}

/// The tap looks at the word, once all lanes are back.
pub struct Looking;

impl Play<(), SeatKnowledge> for Looking {
    ghost use Rattle.vat_tap.specs.Glue.Rule.{Looks};

    ghost then = { λ _ me found after. Looks me found after };
}

/// The words of the table: the ticket word, and 15 to either side of it that are never used. So no memory that a lane reads or
/// another thread writes shares its cache line, or the one that a processor fetches along with it.
pub(crate) const WORDS: usize = 31;

/// Which of them is the ticket word.
pub(crate) const TICKET: usize = 15;

/// The word from which tickets are drawn: how many were.
pub type TicketWord = Table<(), SeatKnowledge, u64, TicketRule, Global>;
