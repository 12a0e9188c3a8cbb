//! The order in which the records of a case are drawn, where the case names none: whoever receives goes on first.

ghost use Rattle.std.specs.Prelude.{◌≡◌, ◌≤◌, find, length, map, IfOk, OnOk};
ghost use Rattle.std.specs.Arc.{arc_value};
ghost use Rattle.std.specs.Option.{option_copied, option_map};
ghost use Rattle.case_book.specs.Case.{vat_limit};
ghost use Rattle.picture.specs.Flow.{flow_of, record_count};
ghost use Rattle.picture.specs.Glue.Seats.{seats_after, next_seat, seat_goes_on, seat_goes_to_receive, seat_receives, seats_of, turn_of_seat};

use crate::order::seat::Seat;
use case_book::{Case, Link};
use std::alloc::{AllocError, Global};
use std::sync::Arc;
use vat_log::VatLog;

/// A turn: the next record of a vat comes.
#[derive(Clone, Copy)]
pub struct VatTurn {
    /// The vat.
    pub vat: u32,
    /// The connection on which the record receives a frame.
    pub received: Option<u32>,
    /// The vat to which it sends a frame, and on which connection.
    pub sent: Option<(u32, u32)>,
}

/// Before the first record.
fn seats_of(alloc: Global, logs: &[Arc<VatLog>]) -> Result<Vec<Seat>, AllocError>
    ensures { IfOk result (λ seats. seats.items ≡ seats_of (map arc_value logs.now)) }
{
    let mut seats = Vec::new(alloc);
    for log in logs {
        let seat = Seat::new(alloc, log)?;
        seats.push(seat)?;
    }
    Ok(seats)
}

/// How many records there are.
fn records_in(logs: &[Arc<VatLog>]) -> usize
    requires { length logs.now ≤ vat_limit }
    ensures { result ≡ record_count (map arc_value logs.now) }
{
    let mut records = 0;
    for log in logs {
        records += log.len();
    }
    records
}

/// The first vat whose next record receives a frame that is under way.
fn first_receiving(seats: &[Seat]) -> Option<&Seat>
    ensures { option_copied result ≡ find seat_receives seats.now }
{
    for seat in seats {
        if seat.receives() {
            return Some(seat);
        }
    }
    None
}

/// The first vat that may go on and to which a frame is under way.
fn first_to_receive(seats: &[Seat]) -> Option<&Seat>
    ensures { option_copied result ≡ find seat_goes_to_receive seats.now }
{
    for seat in seats {
        if seat.goes_to_receive() {
            return Some(seat);
        }
    }
    None
}

/// The first vat that may go on.
fn first_going_on(seats: &[Seat]) -> Option<&Seat>
    ensures { option_copied result ≡ find seat_goes_on seats.now }
{
    for seat in seats {
        if seat.goes_on() {
            return Some(seat);
        }
    }
    None
}

/// The vat that goes on: the first that receives a frame, else the first to which one is under way, else the first that may.
fn next_seat(seats: &[Seat]) -> Option<&Seat>
    ensures { option_copied result ≡ next_seat seats.now }
{
    if let Some(seat) = first_receiving(seats) {
        return Some(seat);
    }
    if let Some(seat) = first_to_receive(seats) {
        return Some(seat);
    }
    first_going_on(seats)
}

/// The turn that is taken next, if one may be.
fn next_turn(seats: &[Seat], links: &[Link]) -> Option<VatTurn>
    ensures { result ≡ option_map (turn_of_seat links.now) (next_seat seats.now) }
{
    Some(next_seat(seats)?.turn(links))
}

/// Each vat follows a turn.
fn follow(seats: &mut [Seat], turn: VatTurn) -> Result<(), AllocError>
    ensures { OnOk result (seats.new ≡ seats_after turn seats.old) }
{
    for seat in seats.iter_mut() {
        seat.follow(turn)?;
    }
    Ok(())
}

/// All vats after a turn.
fn followed(seats: Vec<Seat>, turn: VatTurn) -> Result<Vec<Seat>, AllocError>
    ensures { IfOk result (λ later. later.items ≡ seats_after turn seats.items) }
{
    let mut seats = seats;
    follow(&mut seats, turn)?;
    Ok(seats)
}

/// The vats whose records come, turn by turn: whoever receives a frame goes on first, then whoever has one under way to it.
/// So each frame is received as soon as may be.
pub fn flow_of(alloc: Global, case: &Case) -> Result<Vec<u32>, AllocError>
    ensures { IfOk result (λ order. order.items ≡ flow_of case.now) }
{
    let turns = records_in(case.logs());
    let mut seats = seats_of(alloc, case.logs())?;
    let mut order = Vec::new(alloc);
    for _ in 0..turns {
        let Some(turn) = next_turn(&seats, case.links()) else {
            return Ok(order);
        };
        order.push(turn.vat)?;
        seats = followed(seats, turn)?;
    }
    Ok(order)
}
