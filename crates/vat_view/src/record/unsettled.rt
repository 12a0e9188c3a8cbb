//! What views wait for.

/// What a record may settle, so that views turn.
#[derive(Clone, Copy, PartialEq, Eq, PartialOrd, Ord)]
pub(crate) enum Unsettled {
    /// An own promise, by the reference under which it was vowed.
    Promise(u64),
    /// The results of a call, by the vat's own number of the call.
    Results(u64),
    /// An import, by the number of the record that brought it and its place there.
    Import(usize, usize),
}
