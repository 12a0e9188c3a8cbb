//! Orders of the records of several logs: whether one fits, and one that fits, wherever there is one.
//!
//! It stands on `vat_log`, and on `bytes` for orders as bytes. When an order fits is said in `specs/Fits.antt`, how it is
//! spelled in `specs/Spelling.antt` (docs/FORMATS.md, "A case file and an order"). [`check_order`] finds just what is
//! defined; [`make_order`] makes an order wherever one fits, since taking the smallest vat number that may come finds one
//! (the law of `proofs/Greedy.antt`); [`read_order`] and [`write_order`] are exact both ways.
#![tactic(auto)]

mod connection_counts;
mod cursor;
mod error;
mod format;
mod making;
mod order;
mod order_check;
mod order_progress;
mod ready_vats;
mod schedule;
mod waiting_vats;

pub use error::OrderError;
pub use format::{read_order, write_order};
pub use making::make_order;
pub use order::Order;
pub use order_check::{OrderFinding, check_order};
