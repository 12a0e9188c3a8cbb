//! Reading the structs, lists, texts and capabilities of a frame where they lie, by their pointers, within limits.
//!
//! It stands on `cap_frame`. What stands at a pointer is the whole tree of `specs/Tree.antt`; reading it is a list of
//! visits with costs and an ending, as `specs/Reading.antt` says, and `specs/Fields.antt` says which paths end in a
//! capability. Each call that follows a pointer answers exactly what its reading gives within the limits, or the first
//! refusal, and lowers the words that are left by just what its visits cost. What holds of every reading, as that
//! pointers which correspond in two frames have the same value, `laws` promises. Nothing here takes memory but
//! [`fields`].
#![tactic(auto)]

mod capabilities;
mod data;
mod extent;
mod field_list;
mod following;
mod laws;
mod limits;
mod place;
mod plain_size;
mod pointee;
mod pointer;
mod read_error;
mod text;
mod visiting;

pub use capabilities::fields;
pub use data::{bit_at, u16_at, u32_at, u64_at};
pub use field_list::Fields;
pub use laws::{
    cuts_keep_values, one_visit_is_paid, pads_lead_on, paths_end, paths_rise,
    pointers_want_no_memory, structs_are_paid, texts_end_in_a_zero,
};
pub use limits::Limits;
pub use place::{ListAt, StructAt};
pub use read_error::ReadError;
pub use text::{TextAt, text_field};
pub use visiting::{list_field, root, struct_field};
