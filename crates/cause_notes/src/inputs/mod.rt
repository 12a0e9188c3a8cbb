//! Files that are bad or can't be read: which one it is, and why.

mod bad_case;
pub(crate) mod bad_file;
pub(crate) mod bad_frame;
pub(crate) mod bad_input;
pub(crate) mod file_kind;
pub(crate) mod unread;
