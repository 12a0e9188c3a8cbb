//! What passes on a connection by a record.

ghost use Rattle.std.specs.Prelude.{◌≡◌};
ghost use Rattle.std.specs.Option.{option_copied};
ghost use Rattle.vat_log.specs.Passages.{passage_of, frame_of, passes, frame_sent, frame_received};

use crate::body::Body;
use bytes::Bytes;

impl Body {
    /// Whether the record sends a frame, or receives one, and on which connection; none of a record without a frame.
    pub fn passage(&self) -> Option<(bool, u32)>
        ensures { result ≡ passage_of self.now }
    {
        match self {
            Body::Send { connection, .. } => Some((true, *connection)),
            Body::Receive { connection, .. } => Some((false, *connection)),
            _ => None,
        }
    }

    /// The frame that it sends or receives.
    pub fn frame(&self) -> Option<&Bytes>
        ensures { option_copied result ≡ frame_of self.now }
    {
        match self {
            Body::Send { frame, .. } | Body::Receive { frame, .. } => Some(frame),
            _ => None,
        }
    }

    /// Whether it sends, or else receives, a frame on this connection.
    pub fn passes(&self, sent: bool, connection: u32) -> bool
        ensures { result ≡ passes sent connection self.now }
    {
        match (sent, self) {
            (true, Body::Send { connection: on, .. }) => *on == connection,
            (false, Body::Receive { connection: on, .. }) => *on == connection,
            _ => false,
        }
    }

    /// The frame that it sends on this connection.
    pub fn frame_sent(&self, connection: u32) -> Option<&Bytes>
        ensures { option_copied result ≡ frame_sent connection self.now }
    {
        match self {
            Body::Send {
                connection: on,
                frame,
                ..
            } if *on == connection => Some(frame),
            _ => None,
        }
    }

    /// The frame that it receives on this connection.
    pub fn frame_received(&self, connection: u32) -> Option<&Bytes>
        ensures { option_copied result ≡ frame_received connection self.now }
    {
        match self {
            Body::Receive {
                connection: on,
                frame,
                ..
            } if *on == connection => Some(frame),
            _ => None,
        }
    }
}
