//! What calls ask for.

use crate::view::View;

/// Where a call is to go, and by which method (rpc.capnp, `Call.target`, `Call.interfaceId` and `Call.methodId`).
#[derive(Debug, Drop)]
pub struct Request {
    /// What it goes to: what the reference through which it was made, or the target with which it was received, stood
    /// for then; nothing where that stood for nothing.
    pub goal: Option<View>,
    /// The interface that is called, by its 64-bit id.
    pub interface: u64,
    /// The method of the interface that is called, counted from 0.
    pub method: u16,
}
