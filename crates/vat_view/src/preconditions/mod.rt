//! What `apply` requires of a record: the tests of it.

pub(crate) mod key_counts;
pub(crate) mod kinds;
pub(crate) mod reference_set;
pub(crate) mod references;
pub(crate) mod uses;
