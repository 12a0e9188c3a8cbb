//! What is answered of a case.

use run_model::Run;
use vat_rules::{Rule, Why};

/// What a record breaks.
#[derive(Clone, Copy, Debug, PartialEq, Eq)]
pub enum Breach {
    /// A rule of its own log.
    Rule(Rule),
    /// The order of calls: it delivers a call although another, which was made before it through the same reference, is
    /// delivered only later.
    Order,
}

/// What is answered of a case and an order of its records: the first of these that applies. Vats come by their numbers,
/// links by theirs, then the order, and then what a run of all vats shows.
#[derive(Drop)]
pub enum Report {
    /// A record breaks a rule of its log, or the order of calls.
    Vat {
        /// The vat whose record it is.
        vat: u32,
        /// The record's number, counted from 0.
        at: u64,
        /// What it breaks.
        rule: Breach,
    },
    /// A record isn't judged.
    OutsideVat {
        /// The vat whose record it is.
        vat: u32,
        /// The record's number, counted from 0.
        at: u64,
        /// The reason.
        why: Why,
    },
    /// A frame was received that the other end of its connection didn't send so.
    Link {
        /// The connection.
        connection: u32,
        /// The vat that received the frame.
        end: u32,
        /// Which of the frames that it received there, counted from 0.
        message: u64,
    },
    /// The order that was given doesn't fit: the first step that may not come, counted from 0, or the order's length where
    /// records are left.
    OrderStep(u64),
    /// No order was given, and none fits.
    NoOrder,
    /// Yes: the logs are the vats' parts of one run, and all that is promised of it holds.
    Yes {
        /// How many logs there are.
        vats: u64,
        /// How many records they have.
        records: u64,
        /// How many of them deliver a call.
        delivered: u64,
        /// How many frames were sent and not received.
        under_way: u64,
        /// The run.
        run: Run,
    },
}
