//! Walks over views: where they turn, and where that leads.

pub(crate) mod hops;
pub(crate) mod landing;
pub(crate) mod reachable;
pub(crate) mod shortcuts;
