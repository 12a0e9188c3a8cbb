//! A table by numbers that takes little memory where the numbers come in rising order.
//!
//! It stands on std alone. [`RisingTable`] is seen as the list of its entries; what it has of a number is the value of
//! the first entry with that number (`specs/Entries.antt`).
#![tactic(auto)]

mod table;

pub use table::RisingTable;
