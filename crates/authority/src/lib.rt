//! Who came to have which capabilities of others.
//!
//! It stands on `run_model`, whose definition of edges (`specs/Edges.antt`) [`graph`] meets: where each vat first bound each
//! capability of another vat, by vat, then by record, then by index among what the record binds. That what a vat uses of
//! others has such an edge, or is a field of a call that it received, is the law of `src/laws.rt`. [`record_numbers`] says
//! which record of its vat each step is (`specs/Records.antt`).
#![tactic(auto)]

mod edge;
mod edge_search;
mod edges;
mod key;
mod laws;
mod step_records;
mod witnesses;

pub use edge::Edge;
pub use edge_search::graph;
pub use edges::Graph;
pub use laws::what_is_used_is_explained;
pub use step_records::record_numbers;
