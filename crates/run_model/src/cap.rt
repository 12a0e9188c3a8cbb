//! Capabilities.

ghost use Rattle.std.specs.Prelude.{◌≡◌, IfOk};

use crate::name::Name;
use cap_frame::Path;
use std::alloc::AllocError;

/// A capability, as all vats name it (rpc.capnp, the comments of CapDescriptor and PromisedAnswer).
#[derive(Debug, Drop)]
pub enum Cap {
    /// An object, by the vat that hosts it and that vat's own number of it.
    Object(u32, u64),
    /// A promise, by the vat that vowed it and the reference under which it did.
    Promise(u32, u64),
    /// The result of a call at a path: pointer fields from the root of its results on, each counted from 0. At the empty
    /// path it is the whole of the result. It has this name before the call is answered and after.
    Field(Name, Path),
    /// No capability: what stands in the place of a descriptor that is none.
    Nothing,
}

impl Cap {
    /// A second name that is the same. The only error is that memory ran out.
    pub fn copy(&self) -> Result<Cap, AllocError>
        ensures { IfOk result (λ copied. copied ≡ self.now) }
    {
        match self {
            Cap::Object(vat, object) => Ok(Cap::Object(*vat, *object)),
            Cap::Promise(vat, promise) => Ok(Cap::Promise(*vat, *promise)),
            Cap::Field(call, path) => Ok(Cap::Field(*call, path.copy()?)),
            Cap::Nothing => Ok(Cap::Nothing),
        }
    }
}
