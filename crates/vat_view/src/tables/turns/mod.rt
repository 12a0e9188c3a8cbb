//! The tables of what turned into something else: where each record turned what it settled, and by what.

pub(crate) mod field_targets;
pub(crate) mod goal_key;
pub(crate) mod handovers;
pub(crate) mod resolves;
pub(crate) mod settlements;
pub(crate) mod turned;
