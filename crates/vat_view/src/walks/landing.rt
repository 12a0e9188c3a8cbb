//! Where views land.

/// Where the record that settled a view turns it.
#[derive(Clone, Copy)]
pub(crate) enum Landing {
    /// To the view of this reference.
    Reference(u64),
    /// A field of a call, to the field of this call at the same path.
    Call(u64),
}
