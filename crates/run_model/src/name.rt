//! Names of calls.

/// A call, as all vats name it. It keeps this name wherever it is sent on.
#[derive(Clone, Copy, Debug, PartialEq, Eq)]
pub struct Name {
    /// The vat that made the call, or that sent it as a Bootstrap, by its vat number.
    pub maker: u32,
    /// That vat's own number of the call.
    pub number: u64,
}
