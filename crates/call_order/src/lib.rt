//! Where the order of calls is broken, found as vats take turns, with no record and no step of their run kept.
//!
//! It stands on `call_trace`, which says what run good logs have by an order, on `turn_taking`, which says what turns are, on
//! `merge_order` for orders, on `vat_log` for logs, on `erased` for the turns that its clauses speak of, and on `undelivered`,
//! which finds where the calls of one vat are delivered out of their order. A [`CallOrder`] takes one turn after another. What
//! it keeps is what is under way: the names of calls that came to a vat and haven't left it, those that were sent and not
//! received, and those that were made and not delivered. No message is read, since the record that passes a call notes it.
//! [`CallOrder::fault`] answers the order fault of the run (`specs/Fault.antt`), which doesn't depend on the order
//! ([`orders_have_one_fault`]). `specs/Glue` describes the tables, for the code's contracts alone.
#![tactic(auto)]

mod call_order;
mod calls_under_way;
mod deeds;
mod laws;
mod names_of_calls;
mod order_tables;
mod taken_counts;
mod told;

pub use call_order::CallOrder;
pub use laws::orders_have_one_fault;
