//! What a command runs on.

use std::alloc::Global;

/// What a command runs on, beside its source and its writers.
#[derive(Drop)]
pub struct Host<'a, R, G> {
    /// What starts the workers that audit a case.
    pub rt: &'a R,
    /// Where memory comes from.
    pub alloc: Global,
    /// What watches the audit of a case.
    pub watch: &'a G,
}
