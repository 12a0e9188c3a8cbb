//! What passes between two vats: frames, the messages in them, and the two ends of each.

pub(crate) mod endings;
mod frames;
pub(crate) mod late;
pub(crate) mod mate;
pub(crate) mod record_messages;
