//! What the records of one vat say and name, and what is kept of the vat for that.

pub(crate) mod bound_names;
pub(crate) mod pushing;
pub(crate) mod saying;
pub(crate) mod stories;
pub(crate) mod vat_ledger;
