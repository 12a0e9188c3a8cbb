//! Records of a log with their messages read, and what each says by itself of the numbers of its connection.
//!
//! It stands on `rpc_view`, which reads the messages, on `vat_log`, and on `cap_frame` for its paths. Here stand the
//! definitions by which `vat_view` answers, since they are said of such records. A point of a log is the list of the
//! records before it, the newest first (`specs/Past.antt`). By it are said: when questions are opened, returned and
//! finished, and which Returns are late (`specs/Questions.antt`); how often export and import numbers are held, and
//! their lives (`specs/Lives.antt`); what references, numbers, descriptors and targets stand for (`specs/Views.antt`,
//! and of a number as its vat names it `specs/Numbers.antt`); calls at the vat, and what is known of their results
//! (`specs/Calls.antt`); loopbacks (`specs/Loopbacks.antt`); and what a record uses (`specs/Uses.antt`) and binds
//! (`specs/Bindings.antt`). How a record of a log is read is said in `specs/Decoding.antt`. `number_tables` and
//! `vat_view` are rooms of the same house: they share the glue, and what they alone call of this is exported too.
#![tactic(auto)]

mod borrowed_view;
mod decoded;
mod decoding;
mod effects;
mod number;
mod origin;
mod parts;
mod request;
mod short_list;
mod table_key;
mod table_keys;
mod view;

pub use borrowed_view::BorrowedView;
pub use decoded::DecodedRecord;
pub use effects::{
    asks_elsewhere, descriptors, descriptors_of, has_message, introductions, is_cap, is_promise,
    new_references, noted_call, number_introduced, origin_by, origins, promise_resolved,
    question_finished, question_opened, question_released, question_returned,
    question_returned_lightly, question_taken, receiver_loopback, references,
};
pub use number::Number;
pub use origin::Origin;
pub use request::Request;
pub use short_list::ShortList;
pub use table_key::TableKey;
pub use table_keys::TableKeys;
pub use view::View;
