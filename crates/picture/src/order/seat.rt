//! A vat while the records of a case come one by one.

ghost use Rattle.std.specs.Prelude.{◌≡◌, ◌<◌, IfSome, OnOk, length, nat_lt, option_and_then};
ghost use Rattle.vat_log.specs.Passages.{passage_of};
ghost use Rattle.picture.specs.Flow.{may_pass, takes_frame};
ghost use Rattle.picture.specs.Glue.Seats.{first_on, next_position, heard, is_coming, next_of_seat, received_in, seat_goes_on, frame_addressee, taken};

use crate::order::flow::VatTurn;
use crate::passing::mate::other_end;
use crate::vat_logs::body_in;
use case_book::Link;
use std::alloc::{AllocError, Global};
use std::marker::Model;
use std::sync::Arc;
use vat_log::VatLog;

/// A vat: its log, how many records of it came, and the connections of the frames that are under way to it, in their order.
#[derive(Drop)]
pub struct Seat {
    log: Arc<VatLog>,
    came: usize,
    coming: Vec<u32>,
}

impl Model for Seat {
    ghost use Rattle.std.specs.Arc.{arc_value};
    ghost use Rattle.picture.specs.Glue.Seats.{Seat};

    ghost Value = { Seat };

    ghost view = { λ seat. record { log = arc_value seat.log; came = seat.came; coming = seat.coming.items } };
}

/// The place of the first frame that is under way on a connection.
fn first_on(coming: &[u32], connection: u32) -> Option<usize>
    ensures first { result ≡ first_on connection coming.now }
    ensures within { IfSome result (λ at. at < length coming.now) }
{
    for (at, on) in coming.iter().enumerate() {
        if *on == connection {
            return Some(at);
        }
    }
    None
}

/// Whether what passes so is a frame that is received, and is under way.
fn takes_frame(coming: &[u32], passage: Option<(bool, u32)>) -> bool
    ensures { result ≡ takes_frame (is_coming coming.now) passage }
{
    matches!(passage, Some((false, connection)) if first_on(coming, connection).is_some())
}

/// Whether a record that passes nothing, or passes so, may come.
fn may_pass(coming: &[u32], passage: Option<(bool, u32)>) -> bool
    ensures { result ≡ may_pass (is_coming coming.now) passage }
{
    match passage {
        Some((false, connection)) => first_on(coming, connection).is_some(),
        _ => true,
    }
}

/// The connection on which a frame is received.
fn received_in(passage: Option<(bool, u32)>) -> Option<u32>
    ensures { result ≡ received_in passage }
{
    match passage {
        Some((false, connection)) => Some(connection),
        _ => None,
    }
}

/// The vat to which this one sends a frame, and on which connection.
fn sent_in(links: &[Link], vat: u32, passage: Option<(bool, u32)>) -> Option<(u32, u32)>
    ensures { result ≡ frame_addressee links.now vat passage }
{
    match passage {
        Some((true, connection)) => Some((other_end(links, connection, vat)?, connection)),
        _ => None,
    }
}

/// One record further, if one is left.
fn further(came: usize, records: usize) -> usize
    ensures { result ≡ next_position came records }
{
    if came < records { came + 1 } else { came }
}

/// Whether a frame is under way.
fn is_awaited(coming: &[u32]) -> bool
    ensures { result ≡ nat_lt 0 (length coming.now) }
{
    0 < coming.len()
}

/// A frame that is received is under way no more.
fn take_frame(coming: &mut Vec<u32>, received: Option<u32>)
    ensures { coming.new.items ≡ taken received coming.old.items }
{
    if let Some(connection) = received
        && let Some(at) = first_on(coming, connection)
    {
        coming.remove(at);
    }
}

/// A frame that is sent to this vat is under way to it.
fn hear_frame(coming: &mut Vec<u32>, vat: u32, sent: Option<(u32, u32)>) -> Result<(), AllocError>
    ensures { OnOk result (coming.new.items ≡ heard vat sent coming.old.items) }
{
    if let Some((to, connection)) = sent
        && to == vat
    {
        coming.push(connection)?;
    }
    Ok(())
}

impl Seat {
    ghost use Rattle.std.specs.Prelude.{IfOk};
    ghost use Rattle.std.specs.Arc.{arc_value};
    ghost use Rattle.picture.specs.Glue.Seats.{followed, gone_on, hearing, seat_goes_to_receive, seat_of, seat_receives, turn_of_seat};

    /// Before the first record.
    pub fn new(alloc: Global, log: &Arc<VatLog>) -> Result<Seat, AllocError>
        ensures { IfOk result (λ seat. seat ≡ seat_of (arc_value log.now)) }
    {
        Ok(Seat {
            log: Arc::try_clone(log)?,
            came: 0,
            coming: Vec::new(alloc),
        })
    }

    /// Whether the next record sends or receives a frame, and on which connection.
    fn passage(&self) -> Option<(bool, u32)>
        ensures { result ≡ option_and_then passage_of (next_of_seat self.now) }
    {
        body_in(&self.log, self.came)?.passage()
    }

    /// Whether the next record receives a frame that is under way.
    pub fn receives(&self) -> bool
        ensures { result ≡ seat_receives self.now }
    {
        takes_frame(&self.coming, self.passage())
    }

    /// Whether there is a next record, and it may come.
    pub fn goes_on(&self) -> bool
        ensures { result ≡ seat_goes_on self.now }
    {
        let next = body_in(&self.log, self.came);
        matches!(next, Some(body) if may_pass(&self.coming, body.passage()))
    }

    /// Whether it may, and a frame is under way to the vat.
    pub fn goes_to_receive(&self) -> bool
        ensures { result ≡ seat_goes_to_receive self.now }
    {
        self.goes_on() && is_awaited(&self.coming)
    }

    /// The turn that the vat takes with its next record.
    pub fn turn(&self, links: &[Link]) -> VatTurn
        ensures { result ≡ turn_of_seat links.now self.now }
    {
        let vat = self.log.vat();
        let passage = self.passage();
        VatTurn {
            vat,
            received: received_in(passage),
            sent: sent_in(links, vat, passage),
        }
    }

    /// After its own turn, but for what it hears.
    fn go_on(&mut self, turn: VatTurn)
        ensures { self.new ≡ gone_on turn self.old }
    {
        self.came = further(self.came, self.log.len());
        take_frame(&mut self.coming, turn.received);
    }

    /// It hears what is sent in a turn.
    fn hear(&mut self, turn: VatTurn) -> Result<(), AllocError>
        ensures { OnOk result (self.new ≡ hearing turn self.old) }
    {
        let vat = self.log.vat();
        hear_frame(&mut self.coming, vat, turn.sent)
    }

    /// After a turn, of its own or of another vat's.
    pub fn follow(&mut self, turn: VatTurn) -> Result<(), AllocError>
        ensures { OnOk result (self.new ≡ followed turn self.old) }
    {
        if turn.vat == self.log.vat() {
            self.go_on(turn);
        }
        self.hear(turn)
    }
}
