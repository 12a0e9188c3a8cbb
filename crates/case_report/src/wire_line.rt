//! What is answered of two files.

use crate::report::Breach;
use vat_rules::Why;
use wire_cut::End;

/// What is answered of two files: the line that `wire` prints. Messages are counted from 0, each among the frames of its file.
#[derive(Clone, Copy, Debug, PartialEq, Eq)]
pub enum WireLine {
    /// All frames of both files are explained, and the audit says yes of the two logs.
    Yes {
        /// How many frames the first file has.
        frames_of_a: u64,
        /// How many frames the second file has.
        frames_of_b: u64,
        /// How many calls are delivered in the two logs.
        delivered: u64,
    },
    /// This message isn't explained: the audit names a record of it, or one that was invented behind it.
    No {
        /// Who sent the message.
        end: End,
        /// Its number.
        message: u64,
        /// What the record breaks.
        rule: Breach,
    },
    /// Each of two messages waits for what the other end sends behind the other one: no order exists.
    NoOrder {
        /// The number of the first end's message.
        of_a: u64,
        /// The number of the second end's message.
        of_b: u64,
    },
    /// At this message the explanation stops, and the audit finds nothing to refuse in the two logs.
    Unexplained {
        /// Who sent the message.
        end: End,
        /// Its number.
        message: u64,
    },
    /// The message's frame is longer than a frame may be, whether or not it is cut off; or a log that has as many records as a
    /// log may have would go on with it.
    TooLong {
        /// Who sent the message.
        end: End,
        /// Its number.
        message: u64,
    },
    /// The message isn't judged. In the log whose record stands for it the records before break no rule.
    Outside {
        /// Who sent the message.
        end: End,
        /// Its number.
        message: u64,
        /// The reason.
        why: Why,
    },
    /// Where the message should begin no frame does: its table has too many segments.
    BadFrame {
        /// Whose file it is.
        end: End,
        /// The message's number.
        message: u64,
    },
}
