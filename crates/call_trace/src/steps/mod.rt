//! The steps that the records of all vats take, one after another, and the run that they make.

pub(crate) mod channels;
pub(crate) mod run_builder;
pub(crate) mod run_naming;
pub(crate) mod stepping;
pub(crate) mod turns;
