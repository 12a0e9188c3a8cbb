//! Recording a log from many threads.
//!
//! A [`Tap`] has a lane for each thread. [`Lane::record`] draws a ticket from one word that all lanes share, by one
//! `fetch_add`, and puts the record with its ticket into the lane's own ring. It takes no memory and waits for nobody.
//! [`Tap::drain`] takes from the rings what is found there; [`Tap::close`] gives the log, in which each record stands at its
//! ticket. It is of version 2 where the tap was opened by [`Tap::open`], and of version 3, of a runtime that speaks the later
//! edition of rpc.capnp, where it was opened by [`Tap::open_later`].
//!
//! It stands on `vat_log`, on `rtrb` for the rings and on `atomic_table` for the ticket word. What a log that was recorded so
//! is, says `specs/Tickets.antt`; what each seat at the word knows and what always holds of all, `specs/Glue/Rule.antt`.
#![tactic(auto)]

mod by_ticket;
mod error;
mod intake;
mod lane;
mod tap;
mod ticket;
mod ticket_word;

pub use error::{CloseError, Full};
pub use lane::Lane;
pub use tap::Tap;
pub use ticket::Ticket;
