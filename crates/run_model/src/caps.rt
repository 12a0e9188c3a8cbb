//! Capabilities by place.

ghost use Rattle.std.specs.Prelude.{◌≡◌, IfOk};

use crate::cap::Cap;
use std::alloc::AllocError;
use std::marker::Model;

/// Capabilities by their places, counted from 0, as a message has them (rpc.capnp, `Payload.capTable`). Contracts see them
/// as the list of these.
#[derive(Debug, Drop)]
pub struct Caps {
    caps: Vec<Cap>,
}

impl Model for Caps {
    ghost use Rattle.std.specs.Prelude.{List};
    ghost use Rattle.run_model.specs.declared.cap.Cap.{Cap};

    ghost Value = { List Cap };

    ghost view = { λ caps. caps.caps.items };
}

impl Caps {
    /// The list of these. It takes no memory.
    pub fn new(caps: Vec<Cap>) -> Caps
        ensures { result ≡ caps.items }
    {
        Caps { caps }
    }

    /// The capabilities, by place.
    pub fn as_slice(&self) -> &[Cap]
        ensures { result.now ≡ self.now }
    {
        &self.caps
    }

    /// A second list of the same capabilities. The only error is that memory ran out.
    pub(crate) fn copy(&self) -> Result<Caps, AllocError>
        ensures { IfOk result (λ copied. copied ≡ self.now) }
    {
        let mut caps = Vec::with_capacity(*self.caps.allocator(), self.caps.len())?;
        for cap in &self.caps {
            caps.push(cap.copy()?)?;
        }
        Ok(Caps { caps })
    }
}
