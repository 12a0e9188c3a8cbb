//! Capabilities by their paths.

ghost use Rattle.std.specs.Prelude.{◌≡◌};

use cap_frame::Path;
use std::marker::Model;

/// Capabilities, each by its path and with its index into the capability table, counted from 0 (encoding specification,
/// "Capabilities"). Contracts see them as the list of these.
#[derive(Debug, Drop)]
pub struct Fields {
    items: Vec<(Path, u32)>,
}

impl Model for Fields {
    ghost use Rattle.std.specs.Prelude.{List, ℕ};

    ghost Value = { List (List ℕ × ℕ) };

    ghost view = { λ fields. fields.items.items };
}

impl Fields {
    /// The list of these. It takes no memory.
    pub fn new(items: Vec<(Path, u32)>) -> Fields
        ensures { result ≡ items.items }
    {
        Fields { items }
    }

    /// The paths with their indices, in their order.
    #[inline(always)]
    pub fn as_slice(&self) -> &[(Path, u32)]
        ensures { result.now ≡ self.now }
    {
        &self.items
    }
}
