//! Two logs that a sound pair of vats could have written around the frames that were captured, and what the audit says of them.
#![tactic(auto)]

mod explain;
mod laws;
mod line_of;

pub use explain::explain_wire;
pub use laws::a_wire_that_is_explained_has_a_run;
