//! Values that are shown as this crate's texts.

/// A value of a type from below, to be shown as this crate has it.
#[derive(Clone, Copy)]
pub struct Shown<T>(pub T);
