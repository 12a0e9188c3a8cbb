//! What a run says of the calls of one vat.

/// A step of a run, as far as it tells of the calls that one vat makes.
#[derive(Clone, Copy, Debug, PartialEq, Eq)]
pub enum Moment {
    /// The vat makes a call.
    Made {
        /// The vat's own number of the call.
        call: u64,
        /// The reference through which it is made.
        reference: u64,
    },
    /// A call of the vat is delivered, by whichever vat.
    Delivered {
        /// The vat's own number of the call.
        call: u64,
        /// Which step delivers it: a vat, and how many steps of that vat stand before it.
        place: (u32, u32),
    },
}
