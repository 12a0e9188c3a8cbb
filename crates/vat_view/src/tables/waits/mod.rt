//! The tables of what waits: loopbacks for their echoes, and received calls for what they go to.

pub(crate) mod embargoes;
pub(crate) mod loopbacks;
pub(crate) mod queued_call;
pub(crate) mod waiting_calls;
