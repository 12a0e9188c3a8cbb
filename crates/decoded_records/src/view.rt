//! What references and numbers stand for.

ghost use Rattle.std.specs.Prelude.{◌≡◌, ◌↔◌, IfOk, IsTrue};

use cap_frame::Path;
use std::alloc::AllocError;

/// What a reference or a number of a connection stands for (rpc.capnp, the comments of CapDescriptor, MessageTarget
/// and PromisedAnswer).
#[derive(Debug, Drop)]
pub enum View {
    /// An object of this vat, by its own number.
    Object(u64),
    /// A promise of this vat, by the reference under which it vowed it.
    Promise(u64),
    /// The result of a call, by the vat's own number of the call and the pointer fields from the root of its results
    /// on, each counted from 0. At the empty path it is the whole of the result.
    Field(u64, Path),
    /// What a received descriptor brought: the number of its record in the log, and its place in the table, both
    /// counted from 0.
    Import(usize, usize),
}

/// Whether two paths are one.
fn same_path(a: &Path, b: &Path) -> bool
    ensures { IsTrue result ↔ (a.now ≡ b.now) }
{
    a.as_slice() == b.as_slice()
}

impl View {
    /// Whether another view is the same.
    pub fn is_same(&self, other: &View) -> bool
        ensures { IsTrue result ↔ (self.now ≡ other.now) }
    {
        match (self, other) {
            (View::Object(a), View::Object(b)) => a == b,
            (View::Promise(a), View::Promise(b)) => a == b,
            (View::Field(a, p), View::Field(b, q)) => a == b && same_path(p, q),
            (View::Import(a, p), View::Import(b, q)) => a == b && p == q,
            _ => false,
        }
    }

    /// A second view that is the same. The only error is that memory ran out.
    pub fn copy(&self) -> Result<View, AllocError>
        ensures { IfOk result (λ copied. copied ≡ self.now) }
    {
        match self {
            View::Object(object) => Ok(View::Object(*object)),
            View::Promise(reference) => Ok(View::Promise(*reference)),
            View::Field(call, path) => Ok(View::Field(*call, path.copy()?)),
            View::Import(number, place) => Ok(View::Import(*number, *place)),
        }
    }
}
