//! Lanes.

ghost use Rattle.std.specs.Prelude.{◌≡◌, ◌≤◌, ◌⊎◌, [], ◌∷◌, ◌++◌, length, IfOk, IfErr};
ghost use Rattle.vat_tap.specs.Tickets.{SameLane};

use crate::error::Full;
use crate::ticket::Ticket;
use crate::ticket_word::{Drawing, SeatKnowledge, TICKET, TicketWord};
use atomic_table::Seat;
use rtrb::Producer;
use std::marker::Model;
use std::sync::Arc;
use vat_log::Record;

/// One thread's way into a tap. It can move to another thread.
#[derive(Drop)]
pub struct Lane {
    pub(crate) word: Arc<TicketWord>,
    pub(crate) seat: Seat<(), SeatKnowledge>,
    pub(crate) ring: Producer<(u64, Record)>,
    pub(crate) number: usize,
    pub(crate) recorded: u64,
    pub(crate) share: u64,
}

impl Model for Lane {
    ghost use Rattle.std.specs.Arc.{arc_value};
    ghost use Rattle.vat_tap.specs.Tickets.{LaneView};
    ghost use Rattle.vat_tap.specs.Glue.Taps.{lane_view, IsLane};

    ghost Value = { LaneView };

    ghost view = { λ lane. lane_view lane.seat.table_id lane.number lane.share lane.ring };

    ghost invariant = { λ lane. IsLane (arc_value lane.word).shared.table_id lane.seat.table_id
        lane.seat.me lane.recorded lane.share lane.ring };
}

impl Lane {
    /// Records this: draws a ticket, and puts the record into the lane's ring. It takes no memory, and waits for nobody.
    ///
    /// # Errors
    ///
    /// `Full`, with the record, where no slot of the ring is free or the lane has recorded its share. No ticket is drawn then.
    pub fn record(&mut self, entry: Record) -> Result<Ticket, Full>
        // It stays the same lane of the same tap.
        ensures same { SameLane self.old self.new }
        // The record stands behind the others, at its ticket.
        ensures ok { IfOk result (λ ticket.
            self.new.recorded ≡ self.old.recorded ++ (ticket, entry) ∷ []) }
        // The record is handed back, and nothing was recorded.
        ensures back { IfErr result (λ refused. (refused.0 ≡ entry) × (self.new ≡ self.old)) }
        // The lane has recorded its share, or as many records as its ring has slots, or more.
        ensures full { IfErr result (λ refused. (length self.old.recorded ≡ self.old.share)
            ⊎ (self.old.ring.room ≤ length self.old.recorded)) }
        // A lane never records more than its share.
        ensures share { length self.new.recorded ≤ self.new.share }
    {
        if self.recorded >= self.share || self.ring.is_full() {
            return Err(Full(entry));
        }
        let number = self
            .word
            .shared
            .fetch_add::<Drawing>(&mut self.seat, TICKET, 1);
        self.ring.push_reserved((number, entry));
        self.recorded += 1;
        Ok(Ticket::new(number))
    }
}
