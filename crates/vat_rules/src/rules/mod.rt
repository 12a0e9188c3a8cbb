//! Whether a record meets each of the rules, by what they are about.

mod leads;
pub(crate) mod of_calls;
pub(crate) mod of_caps;
pub(crate) mod of_connections;
pub(crate) mod of_promises;
pub(crate) mod of_results;
mod result_paths;
