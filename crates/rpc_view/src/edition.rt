//! Editions of rpc.capnp.

/// An edition of rpc.capnp, by which messages are read and judged. The later one only reads more.
#[derive(Clone, Copy, Debug, PartialEq, Eq)]
pub enum Edition {
    /// The one in which every answered question needs a Finish. A message with a field of the later edition is outside
    /// of it.
    First,
    /// The one that has `Return.noFinishNeeded` and `Call.onlyPromisePipeline`.
    Later,
}
