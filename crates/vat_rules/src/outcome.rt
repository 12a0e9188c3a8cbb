//! What the audit of one log finds.

use crate::facts::story::Story;
use crate::rule::Rule;

/// Why a record isn't judged. The first three are what rpc_view has as outside of what it reads.
#[derive(Clone, Copy, Debug, PartialEq, Eq)]
pub enum Why {
    /// Its message is part of a level above 1.
    Level,
    /// Its message is `unimplemented`.
    Unimplemented,
    /// Its message has a bit that later editions of rpc.capnp use for what changes the life of a number.
    LaterField,
    /// Its frame isn't read as a message: its bytes aren't a frame, it has a tag that isn't known, or a pointer that
    /// can't be followed within the limits.
    Unread,
}

/// What the audit of one log finds (docs/RULES.md).
#[derive(Debug, Drop)]
pub enum Outcome {
    /// Every record is good, and this is what the log tells.
    Good(Story),
    /// The first record that isn't good, all before it being good, breaks a rule.
    Broken {
        /// The record's number, counted from 0.
        at: u64,
        /// The first rule that it breaks, in the order of [`Rule`].
        rule: Rule,
    },
    /// The first record that isn't good, all before it being good, isn't judged.
    Outside {
        /// The record's number, counted from 0.
        at: u64,
        /// The reason.
        why: Why,
    },
}
