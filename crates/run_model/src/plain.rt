//! Messages that the machine doesn't read.

/// A message of level 1 that says nothing of calls and capabilities: it serves the numbers of its connection alone, or the
/// connection as a whole (rpc.capnp, the comments of Finish, Release, Disembargo and Message.abort). A run tells which of
/// them passed, and nothing more of it.
#[derive(Clone, Copy, Debug, PartialEq, Eq)]
pub enum Plain {
    /// A Finish of a question.
    Finish,
    /// A Release of an export.
    Release,
    /// A Disembargo, of either direction.
    Disembargo,
    /// An abort of the connection.
    Abort,
}
