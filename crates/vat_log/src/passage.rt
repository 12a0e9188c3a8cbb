//! Frames on a connection.

ghost use Rattle.std.specs.Prelude.{◌≡◌, IfOk};

use crate::body::{Body, References};
use bytes::Bytes;
use std::alloc::AllocError;

/// A frame that went out or came in on a connection, with what is noted beside it.
#[derive(Drop)]
pub(crate) struct Passage {
    pub(crate) connection: u32,
    pub(crate) call: u64,
    pub(crate) references: References,
    pub(crate) frame: Bytes,
}

impl Passage {
    /// The same as these say; the frame is shared. The only error is that memory ran out.
    pub(crate) fn copied(
        connection: u32,
        call: u64,
        references: &References,
        frame: &Bytes,
    ) -> Result<Passage, AllocError>
        ensures { IfOk result (λ passage. passage ≡ record {
          connection = connection;
          call = call;
          references = references.now;
          frame = frame.now;
        }) }
    {
        Ok(Passage {
            connection,
            call,
            references: references.copy()?,
            frame: frame.clone()?,
        })
    }

    /// What a SEND with this frame says.
    pub(crate) fn as_send(self) -> Body
        ensures { result ≡ Body.Send self.connection self.call self.references self.frame }
    {
        Body::Send {
            connection: self.connection,
            call: self.call,
            references: self.references,
            frame: self.frame,
        }
    }

    /// What a RECV with this frame says.
    pub(crate) fn as_receive(self) -> Body
        ensures { result ≡ Body.Receive self.connection self.call self.references self.frame }
    {
        Body::Receive {
            connection: self.connection,
            call: self.call,
            references: self.references,
            frame: self.frame,
        }
    }
}
