//! What the logs of the two ends of a connection agree on.
//!
//! These are laws about logs alone: no run of the protocol is spoken of, and nothing here runs. A log is the list of its
//! records, the newest first, as in `vat_view`, whose definitions of questions, numbers and views are meant throughout;
//! `vat_rules` says when a record is good. A point of a log is what is left of it from there on (`specs/Points.antt`).
//! The messages that passed one way on a connection are a stream, and two points of two logs are a consistent cut where
//! what either received by then the other had sent by then (`specs/Streams.antt`). Where several logs' records are taken
//! in one order that fits, each point of the order gives such a cut (`specs/Rows.antt`). What two ends agree on is said
//! in `specs/Agreeing.antt`. A message is told with the opening of its question that it belongs to (`specs/Told.antt`),
//! and what introduced a number is alive until something closes it (`specs/Alive.antt`); `specs/Lasting.antt` speaks of
//! lives from one point to another. What a number stands for at its two ends, and all that the ends agree on, is said in
//! `specs/Standing.antt`; what is under way between them in `specs/Balance.antt`; and which rules a message keeps where
//! it arrives in `specs/Arrival.antt`. Each law is promised by a function of `src/laws.rt`, which does nothing.
#![tactic(auto)]

mod laws;

pub use laws::{
    counts_are_balanced, cuts_are_linked, ends_agree_on_openings, good_ends_agree, held_is_alive,
    importers_are_covered, lives_are_covered, messages_arrive_well, numbers_stand_alike,
    openings_end_once, shared_logs_are_linked,
};
