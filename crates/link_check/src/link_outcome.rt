//! What is found of a link.

/// What is found of a link. Frames are counted on the link's connection alone, at both ends together.
#[derive(Clone, Copy, Debug, PartialEq, Eq)]
pub enum LinkOutcome {
    /// Each end received a prefix of what the other sent: so many frames were received, and so many were sent and not
    /// received.
    Good {
        /// How many frames both ends together received.
        delivered: u64,
        /// How many frames both ends together sent that the other didn't receive.
        in_flight: u64,
    },
    /// The frame of this number, counted from 0 in what the vat `end` received, isn't the one of this number that the
    /// other sent, or the other sent none of this number. The smaller vat number is tried first, then the least message.
    Broken {
        /// The vat that received the frame.
        end: u32,
        /// Which of the frames that it received on the connection, counted from 0.
        message: u64,
    },
}
