//! Connections that were judged by their bytes.

mod byte_kind;
mod lack_text;
mod wire_messages;
pub(crate) mod wire_notes;
