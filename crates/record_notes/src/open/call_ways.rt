//! How far a call came that has no Return, over all vats, and where it stands.

use crate::call_steps::Does;
use crate::open::open_case::{EndedLog, OpenCase};
use crate::open::open_log::{Fate, OpenLog};
use past_records::NoteText;
use std::alloc::AllocError;
use vat_view::TableKey;

/// How many records of a call's way a note tells at most.
const MOST: usize = 32;

/// A question that a vat opened by a record of its log, by sending a call.
#[derive(Clone, Copy)]
struct Sent {
    vat: u32,
    question: TableKey,
    at: usize,
}

/// A record that brings a call further, and its vat.
#[derive(Clone, Copy)]
pub(crate) struct Hop {
    pub(crate) vat: u32,
    pub(crate) at: usize,
    pub(crate) does: Does,
}

/// Where a call stands that has no Return: at which vat, where its log is there.
#[derive(Clone, Copy)]
pub(crate) enum Stands {
    /// It was sent to a vat whose log isn't there.
    Sent,
    /// It was sent to this vat, which never received it.
    NotReceived,
    /// This vat returned it, and the Return was never received.
    Returned,
    /// This vat received it, and nothing has become of it.
    Waits,
    /// It was delivered there, and isn't answered.
    Delivered,
    /// It was answered or ended there, and isn't returned.
    Ended,
}

/// The records that brought a call further, one vat after another, where it stands, and at which vat, where its log is there.
#[derive(Drop)]
pub(crate) struct Way {
    pub(crate) hops: Vec<Hop>,
    pub(crate) stands: Stands,
    pub(crate) stands_at: Option<u32>,
}

impl Does {
    /// The word for it in an object, and what a note says of it with its record and vat.
    pub(crate) fn words(self) -> (&'static str, &'static str) {
        match self {
            Does::Receives => ("receive", ", received by record # of vat #"),
            Does::SendsOn => ("send", ", sent on by record #"),
            Does::Delivers => ("deliver", ", delivered by record #"),
            Does::Answers | Does::Ends => ("end", ", ended by record #"),
        }
    }
}

impl Stands {
    /// The word for it in an object, and what a note says of it with its vat.
    pub(crate) fn words(self) -> (&'static str, &'static str) {
        match self {
            Stands::Sent => ("sent", ""),
            Stands::NotReceived => ("not received", ", and never received by vat #"),
            Stands::Returned => {
                (
                    "returned",
                    ", and returned by vat #, whose Return was never received",
                )
            }
            Stands::Waits => ("waits", ", and never delivered, sent on or ended"),
            Stands::Delivered => ("delivered", ", and never answered"),
            Stands::Ended => ("ended", ", and never returned"),
        }
    }
}

impl Way {
    /// What became of the call at a vat that received it; and how it was sent on, if it was.
    fn add_fate(&mut self, log: &OpenLog<'_>, call: u64) -> Result<Option<Sent>, AllocError> {
        let vat = log.log.vat();
        self.stands = Stands::Waits;
        self.stands_at = Some(vat);
        let Some(fate) = log.fate_of(call) else {
            return Ok(None);
        };
        let Fate { at, does, question } = fate;
        self.hops.push(Hop { vat, at, does })?;
        self.stands = match does {
            Does::Delivers => Stands::Delivered,
            Does::Answers | Does::Ends => Stands::Ended,
            Does::Receives | Does::SendsOn => Stands::Sent,
        };
        if question.is_some() {
            self.stands_at = None;
        }
        Ok(question.map(|question| Sent { vat, question, at }))
    }

    /// What became of a call at the vat to which it was sent; and how it was sent on from there, if it was.
    fn add_hop(&mut self, case: &OpenCase<'_>, sent: Sent) -> Result<Option<Sent>, AllocError> {
        let connection = sent.question.connection;
        let Some(vat) = case.peer_of(sent.vat, connection) else {
            return Ok(None);
        };
        let (Some(from), Some(to)) = (case.log_of(sent.vat), case.log_of(vat)) else {
            return Ok(None);
        };
        self.stands_at = Some(vat);
        if to.received_on(connection) <= from.sent_before(connection, sent.at) {
            self.stands = Stands::NotReceived;
            return Ok(None);
        }
        let Some((call, at)) = to.question_asked(connection, sent.question.number) else {
            self.stands = Stands::Returned;
            return Ok(None);
        };
        let does = Does::Receives;
        self.hops.push(Hop { vat, at, does })?;
        self.add_fate(to, call)
    }

    /// Follows a call that was sent so from vat to vat.
    fn follow(&mut self, case: &OpenCase<'_>, sent: Sent) -> Result<(), AllocError> {
        let mut next = Some(sent);
        for _ in 0..case.records() {
            let Some(sent) = next else {
                return Ok(());
            };
            next = self.add_hop(case, sent)?;
        }
        Ok(())
    }
}

/// The way of a call that has no Return, from this record of a log on, which sent or received it as this question.
pub(crate) fn way_of(
    told: EndedLog<'_, '_>,
    question: TableKey,
    call: u64,
    at: usize,
) -> Result<Way, AllocError> {
    let mut way = Way {
        hops: Vec::new(told.case.alloc),
        stands: Stands::Sent,
        stands_at: None,
    };
    if question.ours {
        let vat = told.vat();
        way.follow(told.case, Sent { vat, question, at })?;
    } else {
        way.add_fate(told.log, call)?;
    }
    Ok(way)
}

/// Appends the way of a call, and where it stands. Long ways are cut.
pub(crate) fn put_way(text: &mut NoteText, way: &Way) {
    for hop in way.hops.iter().take(MOST) {
        let (_, sentence) = hop.does.words();
        text.tell(sentence, &[hop.at as u64, u64::from(hop.vat)]);
    }
    if way.hops.len() > MOST {
        return text.words(", and so on");
    }
    let (_, sentence) = way.stands.words();
    text.tell(sentence, &[u64::from(way.stands_at.unwrap_or(0))]);
}
