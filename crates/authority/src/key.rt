//! Who has which capability, to be looked up.

ghost use Rattle.std.specs.Prelude.{IfOk};
ghost use Rattle.authority.specs.Glue.Keys.{IsKeyOf};

use cap_frame::Path;
use run_model::{Cap, Name};
use std::alloc::{AllocError, Global};

/// A vat and a capability that it has.
#[derive(Drop, PartialEq, Eq, Hash)]
pub(crate) enum Key {
    /// The vat, and an object.
    Object(u32, u32, u64),
    /// The vat, and a promise.
    Promise(u32, u32, u64),
    /// The vat, and the field of a call at a path.
    Field(u32, u32, u64, Vec<u16>),
    /// The vat, and no capability.
    Nothing(u32),
}

impl Key {
    /// The key of this capability at this vat.
    pub(crate) fn new(alloc: Global, vat: u32, cap: &Cap) -> Result<Key, AllocError>
        ensures { IfOk result (IsKeyOf vat cap.now) }
    {
        match cap {
            Cap::Object(owner, object) => Ok(Key::Object(vat, *owner, *object)),
            Cap::Promise(owner, promise) => Ok(Key::Promise(vat, *owner, *promise)),
            Cap::Field(call, path) => Ok(Key::Field(
                vat,
                call.maker,
                call.number,
                Vec::from_slice(alloc, path.as_slice())?,
            )),
            Cap::Nothing => Ok(Key::Nothing(vat)),
        }
    }

    /// The vat and the capability of the key. The only error is that memory ran out.
    pub(crate) fn into_parts(self) -> Result<(u32, Cap), AllocError>
        ensures { IfOk result (λ parts. IsKeyOf parts.0 parts.1 self) }
    {
        match self {
            Key::Object(vat, owner, object) => Ok((vat, Cap::Object(owner, object))),
            Key::Promise(vat, owner, promise) => Ok((vat, Cap::Promise(owner, promise))),
            Key::Field(vat, maker, number, path) => {
                let call = Name { maker, number };
                Ok((vat, Cap::Field(call, Path::new(path)?)))
            }
            Key::Nothing(vat) => Ok((vat, Cap::Nothing)),
        }
    }
}
