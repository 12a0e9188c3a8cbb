//! Taps.

ghost use Rattle.std.specs.Prelude.{◌≡◌, ◌≢◌, ℕ, ◌+◌, ◌≤◌, length, map, slice_get, slice_set, Some, All, OnOk, IfOk, IfErr};
ghost use Rattle.std.specs.List.{flat_map, sum_by};
ghost use Rattle.std.specs.List.Sorted.{IsStrictlyIncreasing};
ghost use Rattle.std.specs.Arc.{arc_value};
ghost use Rattle.vat_log.specs.Log.{written_version, later_version};
ghost use Rattle.vat_tap.specs.Glue.Taps.{version_by, ring_of, HaveRings, AreTaken, IsTap, in_ticket_order};
ghost use Rattle.vat_tap.specs.Tickets.{IsLaneOf, AreDifferent, IsOpened, IsTaped, SameTap, TakesOn, TakesAtMost, tickets_of, share_of, times, once_below};

use crate::by_ticket::{in_order, lend};
use crate::error::CloseError;
use crate::intake::Intake;
use crate::lane::Lane;
use crate::ticket_word::{Closing, Looking, SeatKnowledge, SeatSplit, TICKET, TicketWord, WORDS};
use atomic_table::Seat;
use rtrb::RingBuffer;
use std::alloc::{AllocError, Global};
use std::marker::Model;
use std::sync::Arc;
use vat_log::{LogError, Record, VatLog, write_lent_later_log, write_lent_log};

/// How many records a log can have.
const MOST: u64 = 1_048_576;

/// A log that is recorded by the lanes of several threads.
#[derive(Drop)]
pub struct Tap {
    /// Whether the log is of version 3, and else of version 2.
    later: bool,
    vat: u32,
    word: Arc<TicketWord>,
    seat: Seat<(), SeatKnowledge>,
    intakes: Vec<Intake>,
}

impl Model for Tap {
    ghost use Rattle.std.specs.Prelude.{map, length};
    ghost use Rattle.std.specs.Arc.{arc_value};
    ghost use Rattle.vat_tap.specs.Tickets.{TapView};
    ghost use Rattle.vat_tap.specs.Glue.Taps.{version_by, ring_of, IsTap};

    ghost Value = { TapView };

    ghost view = { λ tap. record {
      version = version_by tap.later;
      vat = tap.vat;
      word = tap.seat.table_id;
      rings = map (λ intake. ring_of intake.ring) tap.intakes.items;
      taken = map (λ intake. intake.taken.items) tap.intakes.items;
    } };

    ghost invariant = { λ tap. IsTap (arc_value tap.word).shared.table_id tap.seat.table_id
        tap.seat.me (length tap.intakes.items) };
}

impl Tap {
    /// A log of this vat that so many lanes record, 1 to 64, each through a ring of so many records, 1 to 65,536. A lane's
    /// share is as many records as it may record in all: 1,048,576 divided by the number of lanes, rounded down. The log is
    /// of version 2.
    ///
    /// # Errors
    ///
    /// A growth of memory was refused.
    pub fn open(
        alloc: Global,
        vat: u32,
        lanes: usize,
        ring: usize,
    ) -> Result<(Tap, Vec<Lane>), AllocError>
        requires lanes { (1 ≤ lanes) × (lanes ≤ 64) }
        requires ring { (1 ≤ ring) × (ring ≤ 65536) }
        ensures { IfOk result (λ opened.
            IsOpened written_version vat lanes ring opened.0 opened.1.items) }
    {
        Tap::opened(alloc, false, vat, lanes, ring)
    }

    /// The same as [`Tap::open`], for a runtime that speaks the later edition of rpc.capnp: the log is of version 3
    /// (docs/FORMATS.md).
    ///
    /// # Errors
    ///
    /// A growth of memory was refused.
    pub fn open_later(
        alloc: Global,
        vat: u32,
        lanes: usize,
        ring: usize,
    ) -> Result<(Tap, Vec<Lane>), AllocError>
        requires lanes { (1 ≤ lanes) × (lanes ≤ 64) }
        requires ring { (1 ≤ ring) × (ring ≤ 65536) }
        ensures { IfOk result (λ opened.
            IsOpened later_version vat lanes ring opened.0 opened.1.items) }
    {
        Tap::opened(alloc, true, vat, lanes, ring)
    }

    /// A log of this vat, of version 3 or 2, and the lanes that record it.
    fn opened(
        alloc: Global,
        later: bool,
        vat: u32,
        lanes: usize,
        ring: usize,
    ) -> Result<(Tap, Vec<Lane>), AllocError>
        requires lanes { (1 ≤ lanes) × (lanes ≤ 64) }
        requires ring { (1 ≤ ring) × (ring ≤ 65536) }
        ensures { IfOk result (λ opened.
            IsOpened (version_by later) vat lanes ring opened.0 opened.1.items) }
    {
        let share = MOST / lanes as u64;
        let (table, first) = TicketWord::of_words(alloc, &[0; WORDS], &share)?;
        let word = Arc::new(alloc, table)?;
        let mut seat = first;
        let mut intakes = Vec::new(alloc);
        let mut opened = Vec::new(alloc);
        for number in 0..lanes {
            let (sending, receiving) = RingBuffer::new(alloc, ring)?;
            let theirs = word.shared.split_seat::<SeatSplit>(&mut seat);
            opened.push(Lane {
                word: Arc::try_clone(&word)?,
                seat: theirs,
                ring: sending,
                number,
                recorded: 0,
                share,
            })?;
            intakes.push(Intake {
                ring: receiving,
                taken: Vec::new(alloc),
            })?;
        }
        let tap = Tap {
            later,
            vat,
            word,
            seat,
            intakes,
        };
        Ok((tap, opened))
    }

    /// Takes what is found in the rings now, and answers how many records that is. Of each lane it takes one ring's length at
    /// most, so it returns while others record. Where memory is refused, nothing is lost, and what was taken stays taken.
    ///
    /// # Errors
    ///
    /// A growth of memory was refused.
    pub fn drain(&mut self) -> Result<u64, AllocError>
        // It stays the same tap, with the same lanes.
        ensures same { SameTap self.old self.new }
        // What was taken of each lane goes on from what was taken before.
        ensures taken { TakesOn self.old.taken self.new.taken }
        // One ring's length of each at most.
        ensures most { TakesAtMost self.old.rings self.old.taken self.new.taken }
        // So many more than before.
        ensures count { IfOk result (λ count.
            sum_by length self.new.taken ≡ sum_by length self.old.taken + count) }
    {
        drain_all(&mut self.intakes)
    }

    /// The log of all that was recorded. The lanes handed in have to be different lanes of this tap, in any order.
    ///
    /// # Errors
    ///
    /// `Missing`, where not all of its lanes are handed in; else `OutOfMemory`, where a growth was refused. The tap and its lanes
    /// are handed back then, nothing is lost, and the lanes can go on.
    pub fn close(self, lanes: Vec<Lane>) -> Result<VatLog, (CloseError, Tap, Vec<Lane>)>
        requires mine { All (IsLaneOf self) lanes.items }
        requires different { AreDifferent lanes.items }
        // With all lanes, what was recorded.
        ensures ok { IfOk result (λ log.
            (length lanes.items ≡ length self.rings)
            × IsTaped self.version self.vat lanes.items log) }
        // Without, they are missing, and the tap is as it was.
        ensures missing { length lanes.items ≢ length self.rings
            → IfErr result (λ refused. (refused.0 ≡ CloseError.Missing) × (refused.1 ≡ self)) }
        // With them, only memory can be lacking.
        ensures all { length lanes.items ≡ length self.rings
            → IfErr result (λ refused. refused.0 ≡ CloseError.OutOfMemory) }
        // What is handed back.
        ensures back { IfErr result (λ refused. SameTap self refused.1
            × TakesOn self.taken refused.1.taken × (refused.2.items ≡ lanes.items)) }
    {
        let mut tap = self;
        let mut lanes = lanes;
        if lanes.len() != tap.intakes.len() {
            return Err((CloseError::Missing, tap, lanes));
        }
        match taken_log(
            *tap.intakes.allocator(),
            tap.later,
            tap.vat,
            &mut tap.intakes,
            &mut lanes,
        ) {
            Ok(log) => {
                let Tap {
                    later: _,
                    vat: _,
                    word,
                    seat,
                    intakes: _,
                } = tap;
                close_ticket_word(&word, seat, lanes);
                Ok(log)
            }
            Err(_) => Err((CloseError::OutOfMemory, tap, lanes)),
        }
    }
}

/// Takes all that a lane recorded.
fn take_one(intakes: &mut Vec<Intake>, lane: &mut Lane) -> Result<(), AllocError>
    requires { slice_get (map (λ intake. ring_of intake.ring) intakes.old.items) lane.old.number
        ≡ Some lane.old.ring }
    ensures rings { map (λ intake. ring_of intake.ring) intakes.new.items
        ≡ map (λ intake. ring_of intake.ring) intakes.old.items }
    ensures lane { lane.new ≡ lane.old }
    ensures longer { TakesOn (map (λ intake. intake.taken.items) intakes.old.items)
        (map (λ intake. intake.taken.items) intakes.new.items) }
    ensures ok { OnOk result (map (λ intake. intake.taken.items) intakes.new.items
        ≡ slice_set (map (λ intake. intake.taken.items) intakes.old.items)
        lane.old.number lane.old.recorded) }
{
    let intake = &mut intakes[lane.number];
    intake.take_all(lane)
}

/// Takes all that the lanes recorded.
fn gather(intakes: &mut Vec<Intake>, lanes: &mut Vec<Lane>) -> Result<(), AllocError>
    requires rings { HaveRings (map (λ intake. ring_of intake.ring) intakes.old.items)
        lanes.old.items }
    requires different { AreDifferent lanes.old.items }
    ensures rings { map (λ intake. ring_of intake.ring) intakes.new.items
        ≡ map (λ intake. ring_of intake.ring) intakes.old.items }
    ensures lanes { lanes.new.items ≡ lanes.old.items }
    ensures longer { TakesOn (map (λ intake. intake.taken.items) intakes.old.items)
        (map (λ intake. intake.taken.items) intakes.new.items) }
    ensures ok { OnOk result
        (AreTaken (map (λ intake. intake.taken.items) intakes.new.items) lanes.old.items) }
{
    for index in 0..lanes.len() {
        take_one(intakes, &mut lanes[index])?;
    }
    Ok(())
}

/// The log of this vat with these records, of version 3 or 2.
fn stored(alloc: Global, later: bool, vat: u32, records: &[&Record]) -> Result<VatLog, LogError>
    ensures { IfOk result (λ log. log ≡ record {
      version = version_by later;
      vat = vat;
      records = map (λ entry. entry.now) records.now;
    }) }
{
    if later {
        return write_lent_later_log(alloc, vat, records);
    }
    write_lent_log(alloc, vat, records)
}

/// The log of what these lanes recorded, of version 3 or 2.
fn log_of(
    alloc: Global,
    later: bool,
    vat: u32,
    intakes: &[Intake],
    lanes: &[Lane],
) -> Result<VatLog, LogError>
    requires { AreTaken (map (λ intake. intake.taken.items) intakes.now) lanes.now }
    ensures log { IfOk result (λ log. log ≡ record {
      version = version_by later;
      vat = vat;
      records = in_ticket_order (flat_map (λ lane. lane.recorded) lanes.now);
    }) }
    ensures rising { IfOk result (λ log.
        All (λ lane. IsStrictlyIncreasing (tickets_of lane.recorded)) lanes.now) }
{
    let mut all = Vec::new(alloc);
    for lane in lanes {
        lend(&mut all, intakes[lane.number].taken.as_slice())?;
    }
    let records = in_order(alloc, all.as_slice())?;
    stored(alloc, later, vat, records.as_slice())
}

/// Takes all that the lanes recorded, and makes the log of it.
fn taken_log(
    alloc: Global,
    later: bool,
    vat: u32,
    intakes: &mut Vec<Intake>,
    lanes: &mut Vec<Lane>,
) -> Result<VatLog, LogError>
    requires rings { HaveRings (map (λ intake. ring_of intake.ring) intakes.old.items)
        lanes.old.items }
    requires different { AreDifferent lanes.old.items }
    ensures rings { map (λ intake. ring_of intake.ring) intakes.new.items
        ≡ map (λ intake. ring_of intake.ring) intakes.old.items }
    ensures lanes { lanes.new.items ≡ lanes.old.items }
    ensures longer { TakesOn (map (λ intake. intake.taken.items) intakes.old.items)
        (map (λ intake. intake.taken.items) intakes.new.items) }
    ensures log { IfOk result (λ log. log ≡ record {
      version = version_by later;
      vat = vat;
      records = in_ticket_order (flat_map (λ lane. lane.recorded) lanes.old.items);
    }) }
    ensures rising { IfOk result (λ log.
        All (λ lane. IsStrictlyIncreasing (tickets_of lane.recorded)) lanes.old.items) }
{
    gather(intakes, lanes)?;
    log_of(alloc, later, vat, intakes, lanes)
}

/// Takes what is found in the rings now, and answers how many records that is.
fn drain_all(intakes: &mut Vec<Intake>) -> Result<u64, AllocError>
    requires { length intakes.old.items ≤ 64 }
    ensures rings { map (λ intake. ring_of intake.ring) intakes.new.items
        ≡ map (λ intake. ring_of intake.ring) intakes.old.items }
    ensures longer { TakesOn (map (λ intake. intake.taken.items) intakes.old.items)
        (map (λ intake. intake.taken.items) intakes.new.items) }
    ensures most { TakesAtMost (map (λ intake. ring_of intake.ring) intakes.old.items)
        (map (λ intake. intake.taken.items) intakes.old.items)
        (map (λ intake. intake.taken.items) intakes.new.items) }
    ensures count { IfOk result (λ count.
        sum_by length (map (λ intake. intake.taken.items) intakes.new.items)
        ≡ sum_by length (map (λ intake. intake.taken.items) intakes.old.items) + count) }
{
    let mut count = 0;
    for index in 0..intakes.len() {
        count += intakes[index].take()?;
    }
    Ok(count)
}

/// Closes the ticket word: joins the seats of all lanes to the tap's, and then reads the word, which shows the proof that
/// the tickets of these lanes are all that were drawn. The number that is read isn't used.
fn close_ticket_word(word: &Arc<TicketWord>, seat: Seat<(), SeatKnowledge>, lanes: Vec<Lane>)
    requires tap { IsTap (arc_value word.now).shared.table_id seat.table_id seat.me
        (length lanes.items) }
    requires mine { All (λ lane. (lane.word ≡ seat.table_id)
        × (lane.share ≡ share_of (length lanes.items))) lanes.items }
    ensures { (ticket : ℕ) → sum_by (λ lane. times ticket (tickets_of lane.recorded)) lanes.items
        ≡ once_below (sum_by (λ lane. length lane.recorded) lanes.items) ticket }
{
    let mut seat = seat;
    let mut lanes = lanes;
    while let Some(lane) = lanes.pop() {
        let Lane {
            seat: theirs,
            word: _,
            ring: _,
            number: _,
            recorded: _,
            share: _,
        } = lane;
        word.shared.join_seat::<Closing>(&mut seat, theirs);
    }
    word.shared.load::<Looking>(&mut seat, TICKET);
}
