//! What a good log tells: what the numbers of each record stand for, and how that is kept.

pub(crate) mod alike;
pub(crate) mod compact;
pub(crate) mod gathered;
pub(crate) mod lookup;
pub(crate) mod plain_facts;
pub(crate) mod role;
pub(crate) mod story;
pub(crate) mod view_list;
